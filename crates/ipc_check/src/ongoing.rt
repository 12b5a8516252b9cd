ghost use Rattle.std.specs.Prelude.{◌≡◌, ◌+◌, ◌≤◌, ◌∷◌, ◌++◌, [], All, Contains, IfSome, OnOk, OnErr, None, vec_len, vec_capacity};
ghost use Rattle.std.specs.Bool.{OnFalse, OnTrue};
ghost use Rattle.ipc_history.specs.Entries.{number_in};
ghost use Rattle.ipc_history.specs.Holding.{Holds};
ghost use Rattle.ipc_history.specs.Legal.{Follows, Legal};
ghost use Rattle.ipc_history.specs.NextOutput.{next_output};
ghost use Rattle.ipc_threads.specs.Slots.{slot_at};
ghost use Rattle.ipc_threads.specs.Steps.{holds};
ghost use Rattle.ipc_check.specs.Ongoing.{IsSpare, is_held_call};

use ipc_base::Past;
use ipc_history::{Entries, Entry, Input, Output};
use ipc_threads::{Change, KeptSlots, Slots};
use ipc_waits::{follows, next_output};
use std::alloc::{AllocError, Global};
use std::marker::Model;

/// A legal history that goes on, seen as its entries, oldest first. Memory holds of them those that
/// enter the open calls, each at the place of its caller's number, and at each other place one that
/// enters no open call.
#[derive(Drop)]
pub(crate) struct Ongoing {
    past: Past<Entry>,
    slots: Slots,
    held: Vec<Entry>,
}

impl Model for Ongoing {
    ghost use Rattle.std.specs.Prelude.{List};
    ghost use Rattle.ipc_history.specs.declared.entry.Entry.{Entry};
    ghost use Rattle.ipc_check.specs.Ongoing.{IsOngoing};

    ghost Value = { List Entry };

    ghost view = { λ history. history.past };

    ghost invariant = { λ history. IsOngoing history.past history.slots history.held.items };
}

impl Ongoing {
    /// The empty history. Takes no memory.
    pub(crate) fn new(alloc: Global) -> Ongoing
        ensures { result ≡ [] }
    {
        Ongoing {
            past: Past::new(),
            slots: Slots::new(),
            held: Vec::new(alloc),
        }
    }

    /// What the history says of each thread number now.
    pub(crate) fn slots(&self) -> &Slots
        ensures past { result.now.past ≡ self.now }
        ensures legal { Legal self.now }
    {
        let _ = self.slots.kept();
        &self.slots
    }

    /// The entries, of which the open calls can be read.
    fn entries(&self) -> Entries<'_>
        ensures { result ≡ self.now }
    {
        Entries::of_pieces(&self.past, &self.held, &[])
    }

    /// Whether an entry follows.
    pub(crate) fn takes(&self, entry: &Entry) -> bool
        ensures yes { OnTrue result (Follows self.now entry.now) }
        ensures no { OnFalse result (Follows self.now entry.now → ⊥) }
    {
        follows(self.slots(), &self.entries(), entry)
    }

    /// The output that the rules ask for; None where they ask for an input.
    pub(crate) fn expected(&self) -> Option<Output>
        ensures { result ≡ next_output self.now }
    {
        next_output(self.slots(), &self.entries())
    }

    /// Appends an entry that follows.
    ///
    /// # Errors
    ///
    /// No memory for it; nothing changes.
    pub(crate) fn append(&mut self, entry: Entry) -> Result<(), AllocError>
        requires { Follows self.old entry }
        ensures ok { OnOk result (self.new ≡ self.old ++ entry ∷ []) }
        ensures err { OnErr result (self.new ≡ self.old) }
    {
        match entry.number() {
            Some(_) => self.hold(entry),
            None => {
                self.pass(&entry);
                Ok(())
            }
        }
    }

    /// Appends an entry that follows, and holds it.
    fn hold(&mut self, entry: Entry) -> Result<(), AllocError>
        requires { Follows self.old entry }
        ensures ok { OnOk result (self.new ≡ self.old ++ entry ∷ []) }
        ensures err { OnErr result (self.new ≡ self.old) }
    {
        self.held.reserve(1)?;
        let place = place_of(&entry);
        let _ = self.slots.note(&entry, place);
        self.past.add(&entry);
        lodge(&mut self.held, &self.slots, place, entry);
        Ok(())
    }

    /// Appends an entry that follows and enters no call.
    fn pass(&mut self, entry: &Entry)
        requires follows { Follows self.old entry.now }
        requires no_call { number_in entry.now ≡ None }
        ensures { self.new ≡ self.old ++ entry.now ∷ [] }
    {
        let changes = self.slots.note(entry, 0);
        self.past.add(entry);
        self.settle(changes.first, entry);
        self.settle(changes.second, entry);
    }

    /// Lets go of the call of a slot that the last entry changed, where that call is over. Where
    /// the entry opened the first thread of a number, its calls have a place from then on.
    fn settle(&mut self, change: Option<Change>, entry: &Entry)
        requires { Contains self.old entry.now }
        ensures { self.new ≡ self.old }
    {
        let Some(change) = change else {
            return;
        };
        for _ in self.held.len()..change.place.saturating_add(1) {
            self.widen(entry);
        }
        self.replace(change.place, entry);
    }

    /// Holds a copy of an entry of the history behind all others.
    fn widen(&mut self, entry: &Entry)
        requires { Contains self.old entry.now }
        ensures { self.new ≡ self.old }
    {
        if let Some(copy) = copy_of(entry) {
            let _ = self.held.push(copy);
        }
    }

    /// Holds a copy of an entry of the history at a place, instead of one that enters no open call.
    fn replace(&mut self, place: usize, entry: &Entry)
        requires { Contains self.old entry.now }
        ensures { self.new ≡ self.old }
    {
        let Some(copy) = copy_of(entry) else {
            return;
        };
        if is_spare(&self.held, &self.slots, place) {
            self.held[place] = copy;
        }
    }
}

/// Holds an entry at a place, instead of one that enters no open call; behind all others where
/// there is none.
fn lodge(held: &mut Vec<Entry>, slots: &Slots, place: usize, entry: Entry)
    requires holds { Holds slots.now.past (held.old.items ++ entry ∷ []) }
    requires room { vec_len held.old + 1 ≤ vec_capacity held.old }
    ensures { Holds slots.now.past held.new.items }
{
    if is_spare(held, slots, place) {
        held[place] = entry;
    } else {
        held.push_reserved(entry);
    }
}

/// Whether the entry at a place, which is of the history of these slots, enters no open call.
fn is_spare(held: &[Entry], slots: &Slots, place: usize) -> bool
    requires { All (Contains slots.now.past) held.now }
    ensures { OnTrue result (IsSpare slots.now.past held.now place) }
{
    let kept = slots.kept();
    match held.get(place) {
        Some(entry) => !is_held_call(kept, entry),
        None => false,
    }
}

/// The number of the caller of the call that an entry enters.
fn place_of(entry: &Entry) -> usize {
    match entry {
        Entry::Given(Input::Called(_, caller, _)) => caller.number() as usize,
        _ => 0,
    }
}

/// The same entry, where it opens a thread or may end calls.
fn copy_of(entry: &Entry) -> Option<Entry>
    ensures { IfSome result (λ copy. copy ≡ entry.now) }
{
    match entry {
        Entry::Given(Input::Opened(thread, space)) => {
            Some(Entry::Given(Input::Opened(*thread, *space)))
        }
        Entry::Given(Input::Broke(thread)) => Some(Entry::Given(Input::Broke(*thread))),
        Entry::Written(output) => Some(Entry::Written(*output)),
        _ => None,
    }
}

/// Whether the slot at a place holds the open call of a number.
fn holds(slots: &KeptSlots, place: usize, number: u64) -> bool
    ensures { result ≡ holds (slot_at slots.now.table place) number }
{
    match slots.held(place) {
        Some(call) => call.number == number,
        None => false,
    }
}

/// Whether an entry enters the call that the slot of its caller holds.
fn is_held_call(slots: &KeptSlots, entry: &Entry) -> bool
    ensures { result ≡ is_held_call slots.now.table entry.now }
{
    match entry {
        Entry::Given(Input::Called(number, caller, _)) => {
            holds(slots, caller.number() as usize, *number)
        }
        _ => false,
    }
}
