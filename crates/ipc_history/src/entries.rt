ghost use Rattle.std.specs.Prelude.{◌≡◌, ◌++◌, Some, IfSome, IsFalse, IsNone, IsTrue};
ghost use Rattle.ipc_history.specs.Calls.{call_at, is_called};
ghost use Rattle.ipc_history.specs.Entries.{call_in, calls};
ghost use Rattle.ipc_history.specs.Holding.{HasCall, Holds};
ghost use Rattle.ipc_history.specs.Legal.{Legal};
ghost use Rattle.ipc_history.specs.Phases.{is_over};

use crate::call::Call;
use crate::entry::Entry;
use ipc_base::Past;
use ipc_words::ThreadId;
use std::marker::Model;

/// The entries of a history: seen as the whole past, of which a program reads the calls that are
/// open. Memory holds the entries of these, and may hold others.
#[derive(Drop)]
pub struct Entries<'a> {
    past: &'a Past<Entry>,
    // what memory holds, in two pieces
    held: &'a [Entry],
    since: &'a [Entry],
}

impl<'a> Model for Entries<'a> {
    ghost use Rattle.std.specs.Prelude.{List, ◌++◌};
    ghost use Rattle.ipc_history.specs.Holding.{Holds};
    ghost use Rattle.ipc_history.specs.declared.entry.Entry.{Entry};

    ghost Value = { List Entry };

    ghost view = { λ e. e.past.now };

    ghost invariant = { λ e. Holds e.past.now (e.held.now ++ e.since.now) };
}

/// The place of the entry that enters a call, by a walk; None where there is none.
fn place_by_walk(held: &[Entry], number: u64) -> Option<usize>
    ensures found { IfSome result (λ place. HasCall held.now place number) }
    ensures none { IsNone result → IsFalse (is_called held.now number) }
{
    for place in 0..held.len() {
        if held[place].calls(number) {
            return Some(place);
        }
    }
    None
}

/// A place, where the entry there enters a call.
fn place_at(held: &[Entry], number: u64, hint: usize) -> Option<usize>
    ensures { IfSome result (λ place. HasCall held.now place number) }
{
    if hint < held.len() && held[hint].calls(number) {
        Some(hint)
    } else {
        None
    }
}

/// The caller and the call of an entry that enters it.
fn call_of(entry: &Entry, number: u64) -> (ThreadId, &Call)
    requires { IsTrue (calls number entry.now) }
    ensures { call_in number entry.now ≡ Some (result.0, result.1.now) }
{
    match entry.call(number) {
        Some(found) => found,
        None => unreachable!(),
    }
}

impl<'a> Entries<'a> {
    /// A past, and all its entries in memory.
    pub fn of(past: &'a Past<Entry>, held: &'a [Entry]) -> Entries<'a>
        requires { held.now ≡ past.now }
        ensures { result ≡ past.now }
    {
        Entries {
            past,
            held,
            since: &[],
        }
    }

    /// A past, and what memory holds of it.
    pub(crate) fn held(past: &'a Past<Entry>, held: &'a [Entry]) -> Entries<'a>
        requires { Holds past.now held.now }
        ensures { result ≡ past.now }
    {
        Entries {
            past,
            held,
            since: &[],
        }
    }

    /// A past, and what memory holds of it in two pieces: entries of it alone, and that of each
    /// open call.
    pub fn of_pieces(past: &'a Past<Entry>, held: &'a [Entry], since: &'a [Entry]) -> Entries<'a>
        requires { Holds past.now (held.now ++ since.now) }
        ensures { result ≡ past.now }
    {
        Entries { past, held, since }
    }

    /// The caller and the parts of an open call, whose entry is looked for first at a place among
    /// those that memory holds. Any place will do: a wrong one costs time alone.
    pub fn call(&self, number: u64, hint: usize) -> (ThreadId, &Call)
        requires legal { Legal self.now }
        requires open { IsFalse (is_over self.now number) }
        ensures { call_at self.now number ≡ Some (result.0, result.1.now) }
    {
        let held = self.held;
        let since = self.since;
        if let Some(place) = place_at(held, number, hint) {
            return call_of(&held[place], number);
        }
        if let Some(place) = place_at(since, number, hint.wrapping_sub(held.len())) {
            return call_of(&since[place], number);
        }
        if let Some(place) = place_by_walk(held, number) {
            return call_of(&held[place], number);
        }
        match place_by_walk(since, number) {
            Some(place) => call_of(&since[place], number),
            None => unreachable!(),
        }
    }

    /// Where memory will hold the next entry: the place for [`Entries::call`], where that enters a
    /// call.
    pub fn next_place(&self) -> usize {
        self.held.len().saturating_add(self.since.len())
    }
}
