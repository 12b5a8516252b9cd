ghost use Rattle.std.specs.Prelude.{◌≡◌, ◌+◌, ◌≤◌, ◌<◌, [], ◌∷◌, ◌++◌, ◌==◌, ℕ, length, vec_len, vec_capacity};
ghost use Rattle.std.specs.Prelude.{Some, None, IfSome, IsTrue, IsFalse, true, false, nat_lt};
ghost use Rattle.std.specs.List.{list_any};
ghost use Rattle.ipc_words.specs.Limits.{last_moment};
ghost use Rattle.ipc_history.specs.declared.entry.Entry.TheVariants.{Given};
ghost use Rattle.ipc_history.specs.declared.entry.Input.TheVariants.{At};
ghost use Rattle.ipc_history.specs.Calls.{numbers};
ghost use Rattle.ipc_history.specs.Entries.{number_in};
ghost use Rattle.ipc_history.specs.Threads.{now};
ghost use Rattle.ipc_history.specs.Legal.{Legal, Quiet, Follows, is_admissible};
ghost use Rattle.ipc_history.specs.Settled.{Continued, Settled};
ghost use Rattle.ipc_history.specs.Timing.{is_due_at};
ghost use Rattle.ipc_laws.specs.Counting.{room_owed};
ghost use Rattle.ipc_desks.specs.Finishes.{finishes, is_named};
ghost use Rattle.ipc_core.specs.CourseParts.{ComesIdle, HasCopies, SameBooks};
ghost use Rattle.ipc_core.specs.Finished.{IsFresh, with_name};
ghost use Rattle.ipc_core.specs.Outcomes.{is_among};
ghost use Rattle.ipc_core.specs.Steps.{at_if_later, with_input};
ghost use Rattle.ipc_core.specs.CommandRoom.{command_need, is_clock};

use crate::course::Course;
use ipc_desks::{Desks, Finished, Prepared};
use ipc_history::{Entry, Input};
use ipc_threads::Slots;
use ipc_words::ThreadId;

impl Course {
    /// Appends an entry that may follow, with the copies that a call brings. Takes no memory.
    pub(super) fn append(&mut self, entry: Entry, copies: Option<Prepared>)
        requires follows { Follows self.old.entries entry }
        requires idle { ComesIdle self.old.entries self.old.taken entry }
        requires copies { HasCopies entry copies }
        requires room { length self.old.entries < self.old.room }
        requires fresh { IsFresh self.old entry }
        ensures entries { self.new.entries ≡ self.old.entries ++ entry ∷ [] }
        ensures room { self.new.room ≡ self.old.room }
        ensures books { SameBooks self.old self.new }
    {
        let hint = self.history.whole().next_place();
        let ended = note(&mut self.desks, self.waiting.slots(), &entry, copies);
        self.partners.note(self.waiting.slots(), &entry);
        self.waiting.note(&entry, hint);
        add(&mut self.finished, ended.first);
        add(&mut self.finished, ended.second);
        self.history.push(entry);
    }

    /// Appends an entry that may follow, any but a call. Takes no memory.
    fn append_other(&mut self, other: Entry)
        requires follows { Follows self.old.entries other }
        requires no_call { number_in other ≡ None }
        requires room { length self.old.entries < self.old.room }
        requires fresh { IsFresh self.old other }
        ensures entries { self.new.entries ≡ self.old.entries ++ other ∷ [] }
        ensures room { self.new.room ≡ self.old.room }
        ensures books { SameBooks self.old self.new }
    {
        let place = self.history.whole().next_place();
        let over = self.desks.note(self.waiting.slots(), &other);
        self.partners.note(self.waiting.slots(), &other);
        self.waiting.note(&other, place);
        add(&mut self.finished, over.first);
        add(&mut self.finished, over.second);
        self.history.push(other);
    }

    /// Writes the outputs that apply, until none does: of a transfer of words both at once. Takes
    /// no memory.
    pub(crate) fn settle(&mut self)
        requires legal { Legal self.old.entries }
        requires room { length self.old.entries + room_owed self.old.entries ≤ self.old.room }
        ensures settled { Settled self.old.entries self.new.entries }
        ensures room { self.new.room ≡ self.old.room }
        ensures spent { length self.new.entries + room_owed self.new.entries
            ≤ length self.old.entries + room_owed self.old.entries }
        ensures books { SameBooks self.old self.new }
    {
        while let Some(output) = self.next_output() {
            self.write(output);
        }
    }

    /// Appends the At of a moment that is later than the history's.
    pub(super) fn clock(&mut self, moment: u64)
        requires follows { IsTrue (nat_lt (now self.old.entries) moment)
            → Follows self.old.entries (Given (At moment)) }
        requires room { length self.old.entries < self.old.room }
        ensures entries { self.new.entries ≡ self.old.entries
            ++ at_if_later self.old.entries moment }
        ensures room { self.new.room ≡ self.old.room }
        ensures books { SameBooks self.old self.new }
    {
        if self.waiting.slots().now() < moment {
            self.append_other(Entry::Given(Input::At(moment)));
        }
    }

    /// Takes an input: appends it, after the At of a later moment, and then the outputs until none
    /// applies; asks no rule where the input tells that none does. Takes no memory.
    pub(crate) fn take_input(&mut self, moment: u64, input: Input, copies: Option<Prepared>)
        requires legal { Legal self.old.entries }
        requires quiet { Quiet self.old.entries }
        requires in_range { moment < last_moment + 1 }
        requires undue { list_any (is_due_at self.old.entries moment)
            (numbers self.old.entries) ≡ false }
        requires admissible { IsTrue (is_admissible self.old.entries input) }
        requires no_clock { is_clock input ≡ false }
        requires room { length self.old.entries + room_owed self.old.entries
            + command_need input ≤ self.old.room }
        requires idle { ComesIdle self.old.entries self.old.taken (Given input) }
        requires copies { HasCopies (Given input) copies }
        ensures legal { Legal self.new.entries }
        ensures taken { self.new.taken ≡ self.old.taken }
        ensures since { self.new.since ≡ length self.old.entries }
        ensures held { self.new.held ≡ self.old.held }
        ensures settled { Settled (with_input self.old.entries moment input) self.new.entries }
        ensures room { self.new.room ≡ self.old.room }
        ensures spent { length self.new.entries + room_owed self.new.entries
            ≤ length self.old.entries + room_owed self.old.entries + command_need input }
    {
        self.begin();
        if self.give(moment, input, copies) {
            return;
        }
        self.settle();
    }

    /// Appends the At of a moment at which a phase is due, and the output that it brings. Takes no
    /// memory.
    pub(crate) fn tick(&mut self, moment: u64)
        requires legal { Legal self.old.entries }
        requires quiet { Quiet self.old.entries }
        requires later { now self.old.entries < moment }
        requires in_range { moment < last_moment + 1 }
        requires due { list_any (is_due_at self.old.entries moment)
            (numbers self.old.entries) ≡ true }
        requires room { length self.old.entries + room_owed self.old.entries ≤ self.old.room }
        ensures books { SameBooks self.old self.new }
        ensures entries { Continued (self.old.entries ++ Given (At moment) ∷ []) self.new.entries }
        ensures room { self.new.room ≡ self.old.room }
        ensures spent { length self.new.entries + room_owed self.new.entries
            ≤ length self.old.entries + room_owed self.old.entries }
    {
        self.append(Entry::Given(Input::At(moment)), None);
        if let Some(output) = self.next_output() {
            self.append(Entry::Written(output), None);
        }
    }
}

/// Notes an entry at the desks, and says whose call it ended. The slots are those of the entries
/// before it.
fn note(desks: &mut Desks, slots: &Slots, entry: &Entry, copies: Option<Prepared>) -> Finished
    requires past { slots.now.past ≡ desks.old.past }
    requires follows { Follows desks.old.past entry.now }
    requires idle { ComesIdle desks.old.past desks.old.taken entry.now }
    requires copies { HasCopies entry.now copies }
    ensures past { desks.new.past ≡ desks.old.past ++ entry.now ∷ [] }
    ensures taken { desks.new.taken ≡ desks.old.taken }
    ensures finished { (t : ℕ) → is_named result t ≡ finishes desks.old.past entry.now t }
{
    match entry {
        Entry::Given(Input::Called(number, caller, call)) => match copies {
            Some(copies) => {
                desks.note_called(slots, entry, *number, *caller, call.call(), copies)
            }
            None => unreachable!(),
        },
        _ => desks.note(slots, entry),
    }
}

/// Adds a thread to those that are named, where it is not yet there.
pub(super) fn add(names: &mut Vec<ThreadId>, thread: Option<ThreadId>)
    requires { IfSome thread (λ t. IsFalse (is_among t names.old.items)
        → vec_len names.old < vec_capacity names.old) }
    ensures items { names.new.items ≡ with_name names.old.items thread }
    ensures capacity { vec_capacity names.new ≡ vec_capacity names.old }
{
    if let Some(thread) = thread {
        if !is_named(names, thread) {
            names.push_reserved(thread);
        }
    }
}

/// Whether a thread is named.
fn is_named(names: &[ThreadId], thread: ThreadId) -> bool
    ensures { result ≡ is_among thread names.now }
{
    names.iter().any(|name| *name == thread)
}
