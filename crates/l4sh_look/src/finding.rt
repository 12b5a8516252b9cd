//! Where the open calls of a history are found.
ghost use Rattle.std.specs.Prelude.{◌≡◌, ◌<◌, ℕ, IfSome, IsFalse, IsNone, IsTrue, Some};
ghost use Rattle.ipc_history.specs.Phases.{is_over};
ghost use Rattle.ipc_words.specs.Limits.{table_slots};
ghost use Rattle.ipc_threads.specs.Slots.{slot_at};
ghost use Rattle.ipc_threads.specs.Standings.{standing_of};
ghost use Rattle.ipc_threads.specs.Steps.{holds};

use ipc_history::{Entry, Input};
use ipc_threads::{Slots, Standing};
use ipc_words::limits::TABLE_SLOTS;

/// By the last bits of its number, the place of the thread that entered a call: where an open call
/// is looked for first.
#[derive(Clone, Copy)]
pub(crate) struct Places {
    places: [usize; TABLE_SLOTS],
}

impl Places {
    /// Of no call.
    pub(crate) fn new() -> Places {
        Places {
            places: [0; TABLE_SLOTS],
        }
    }

    /// Takes note of an entry.
    pub(crate) fn note(&mut self, entry: &Entry) {
        if let Entry::Given(Input::Called(number, caller, _)) = entry {
            self.places[index_of(*number)] = caller.number() as usize;
        }
    }

    /// The open call of a number, as the slots of a history have it.
    pub(crate) fn call(&self, slots: &Slots, number: u64) -> Option<Standing>
        ensures { IsFalse (is_over slots.now.past number)
            → result ≡ Some (standing_of slots.now.past number) }
    {
        let _ = slots.kept();
        match self.place(slots, number) {
            Some(place) => slots.call_at(place),
            None => None,
        }
    }

    // The place of the slot that holds a call.
    fn place(&self, slots: &Slots, number: u64) -> Option<usize>
        ensures holds { IfSome result (λ k.
            IsTrue (holds (slot_at slots.now.kept.table k) number)) }
        ensures none { IsNone result → (k : ℕ) → k < table_slots
            → IsFalse (holds (slot_at slots.now.kept.table k) number) }
    {
        let place = self.places[index_of(number)];
        if holds_at(slots, place, number) {
            Some(place)
        } else {
            place_by_walk(slots, number)
        }
    }
}

// The last bits of a number.
fn index_of(number: u64) -> usize
    ensures { result < table_slots }
{
    (number % TABLE_SLOTS as u64) as usize
}

// The place of the slot that holds a call, in one walk.
fn place_by_walk(slots: &Slots, number: u64) -> Option<usize>
    ensures holds { IfSome result (λ k. IsTrue (holds (slot_at slots.now.kept.table k) number)) }
    ensures none { IsNone result → (k : ℕ) → k < table_slots
        → IsFalse (holds (slot_at slots.now.kept.table k) number) }
{
    for place in 0..TABLE_SLOTS {
        if holds_at(slots, place, number) {
            return Some(place);
        }
    }
    None
}

// Whether the slot at a place holds the open call of a number.
fn holds_at(slots: &Slots, place: usize, number: u64) -> bool
    ensures { result ≡ holds (slot_at slots.now.kept.table place) number }
{
    match slots.held(place) {
        Some(call) => call.number == number,
        None => false,
    }
}
