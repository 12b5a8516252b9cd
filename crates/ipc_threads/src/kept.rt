ghost use Rattle.std.specs.Prelude.{◌≡◌, ◌==◌, ◌<◌, None, [], option_copied, replicate, slice_set};
ghost use Rattle.ipc_words.specs.Limits.{table_slots};
ghost use Rattle.ipc_threads.specs.Changes.{change_at};
ghost use Rattle.ipc_threads.specs.Making.{IsMade, IsOfNumber, made_slot};
ghost use Rattle.ipc_threads.specs.Pledges.{open_in, pledge_in};
ghost use Rattle.ipc_threads.specs.Slots.{Stands, slot_at, space_in};
ghost use Rattle.ipc_threads.specs.Steps.{holds, standing_in};
ghost use Rattle.ipc_threads.specs.Table.{blank};

mod copying;
mod exchange;
mod inputs;
mod outputs;
mod passing;

use crate::changes::Change;
use crate::last::Last;
use crate::slot::{Live, Standing};
use crate::slot_table::SlotTable;
use ipc_words::ThreadId;
use ipc_words::limits::TABLE_SLOTS;

/// The threads by their numbers, each with its open call; a moment, how many calls were made, and
/// the last entry. That they are those of a history is said elsewhere.
#[derive(Drop)]
pub struct KeptSlots {
    pub(crate) table: SlotTable,
    pub(crate) moment: u64,
    pub(crate) calls_made: u64,
    pub(crate) last: Last,
    /// No thread had a number from this one on.
    pub(crate) top: usize,
    /// Where an open call is looked for first: the place of one that was found or entered last.
    pub(crate) recent: usize,
}

impl KeptSlots {
    /// The slots of the empty history.
    pub(crate) fn new() -> KeptSlots
        ensures { Stands [] result }
    {
        KeptSlots {
            table: SlotTable::new(),
            moment: 0,
            calls_made: 0,
            last: Last::Nothing,
            top: 0,
            recent: 0,
        }
    }

    /// Slots at a moment and after so many calls, where nothing comes of the last entry; no number
    /// had a thread yet.
    pub fn made(moment: u64, calls_made: u64) -> KeptSlots
        ensures table { result.table ≡ replicate table_slots blank }
        ensures made { IsMade result moment calls_made }
    {
        KeptSlots {
            table: SlotTable::new(),
            moment,
            calls_made,
            last: Last::Nothing,
            top: TABLE_SLOTS,
            recent: 0,
        }
    }

    /// Sets what a number has that has no live thread: its last version, and a live thread, if
    /// there is one.
    pub fn make(&mut self, place: usize, version: u32, live: Option<Live>)
        requires within { place < table_slots }
        requires free { (slot_at self.old.table place).live ≡ None }
        requires live { IsOfNumber place version live }
        ensures { self.new ≡ record self.old {
          table = slice_set self.old.table place
              (made_slot version live);
        } }
    {
        self.table.make(place, version, live);
    }

    /// The moment, in microseconds.
    pub fn moment(&self) -> u64
        ensures { result ≡ self.now.moment }
    {
        self.moment
    }

    /// The last entry, where an output may come of it alone.
    pub fn last(&self) -> Last
        ensures { result ≡ self.now.last }
    {
        self.last
    }

    /// No thread had a number from this one on.
    pub fn top(&self) -> usize
        ensures { result ≡ self.now.top }
    {
        self.top
    }

    /// Where the entry of the open call of a thread is looked for first.
    pub fn hint_of(&self, thread: ThreadId) -> usize {
        self.table.hint_of(thread)
    }

    /// What is kept of the open call of the slot at a place, where it stands; None past the last
    /// place.
    pub fn held(&self, place: usize) -> Option<&Standing>
        ensures { option_copied result ≡ standing_in (slot_at self.now.table place) }
    {
        self.table.held(place)
    }

    /// The open call that the slot at a place holds.
    pub fn call_at(&self, place: usize) -> Option<Standing>
        ensures { result ≡ standing_in (slot_at self.now.table place) }
    {
        self.held(place).copied()
    }

    /// Whether the slot at a place holds the open call of a number; no past the last place.
    pub(crate) fn holds_at(&self, place: usize, number: u64) -> bool
        ensures { result ≡ holds (slot_at self.now.table place) number }
    {
        match self.held(place) {
            Some(call) => call.number == number,
            None => false,
        }
    }

    /// The place of the partner of the call at a place, or that place.
    pub(crate) fn place_beside(&self, place: usize) -> usize {
        match self.held(place) {
            Some(call) => call.partner().number() as usize,
            None => place,
        }
    }

    /// The space of the thread of an id where that is live, else 0.
    fn space_in(&self, thread: ThreadId) -> u64
        ensures { result ≡ space_in self.now.table thread }
    {
        self.table.space_in(thread)
    }

    /// Whether two threads that are live are of one space.
    pub fn are_local(&self, thread: ThreadId, other: ThreadId) -> bool
        ensures { result ≡ (space_in self.now.table thread == space_in self.now.table other) }
    {
        self.space_in(thread) == self.space_in(other)
    }

    /// The entries that are pledged for the call that the slot at a place holds.
    pub(crate) fn pledge_at(&self, place: usize) -> u64
        requires { place < table_slots }
        ensures { result ≡ pledge_in (slot_at self.now.table place) }
    {
        match self.held(place) {
            Some(call) => call.pledge(),
            None => 0,
        }
    }

    /// How many open calls the slot at a place holds: one or none.
    pub(crate) fn open_at(&self, place: usize) -> usize
        requires { place < table_slots }
        ensures { result ≡ open_in (slot_at self.now.table place) }
    {
        match self.held(place) {
            Some(_) => 1,
            None => 0,
        }
    }

    /// What a change of the slot at a place is to say.
    pub(crate) fn change_at(&self, place: usize) -> Change
        requires { place < table_slots }
        ensures { result ≡ change_at self.now.table place }
    {
        Change {
            place,
            before: self.call_at(place),
        }
    }
}
