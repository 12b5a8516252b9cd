ghost use Rattle.std.specs.Prelude.{◌≡◌, ◌<◌, None, IsSome, is_some, option_copied, replicate, slice_set};
ghost use Rattle.ipc_words.specs.Limits.{table_slots};
ghost use Rattle.ipc_words.specs.ThreadId.{number_of};
ghost use Rattle.ipc_threads.specs.Making.{IsOfNumber, made_slot};
ghost use Rattle.ipc_threads.specs.Steps.{calling, standing_in};
ghost use Rattle.ipc_threads.specs.Table.{MayOpen, blank, open_call_in, ended, fresh, live_in, live_slots, slot_at, space_in};

use crate::ThreadTable;
use crate::slot::{Live, Standing};
use ipc_words::limits::TABLE_SLOTS;
use ipc_words::{ThreadId, next_version};
use std::marker::Model;

/// The threads by their numbers, each with its open call; seen as the list of the slots of the
/// numbers, [`TABLE_SLOTS`] from 0 on.
#[derive(Drop)]
pub(crate) struct SlotTable {
    threads: ThreadTable,
    /// The open call of the live thread of each number. Nothing is said where none is live.
    calls: [Option<Standing>; TABLE_SLOTS],
    /// Where the entry of the open call of each number is looked for first. Nothing is said of it.
    hints: [usize; TABLE_SLOTS],
}

impl Model for SlotTable {
    ghost use Rattle.std.specs.Prelude.{◌≡◌, List, length};
    ghost use Rattle.ipc_words.specs.Limits.{table_slots};
    ghost use Rattle.ipc_threads.specs.Slot.{Slot};
    ghost use Rattle.ipc_threads.specs.Table.{slots_from};

    ghost Value = { List Slot };

    ghost view = { λ table. slots_from 0 table.threads table.calls };

    ghost invariant = { λ table. (length table.threads ≡ table_slots) × (length table.calls ≡ table_slots) };
}

impl SlotTable {
    /// A table of which no number had a thread yet.
    pub(crate) fn new() -> SlotTable
        ensures { result ≡ replicate table_slots blank }
    {
        SlotTable {
            threads: ThreadTable::new(),
            calls: [None; TABLE_SLOTS],
            hints: [0; TABLE_SLOTS],
        }
    }

    /// How many threads are live.
    pub(crate) fn live_threads(&self) -> u32
        ensures { result ≡ live_slots self.now }
    {
        self.threads.live()
    }

    /// The version that the next thread of a number gets; None where the number is worn out.
    pub(crate) fn next_version_of(&self, number: u32) -> Option<u32>
        ensures { result ≡ (slot_at self.now number).version }
    {
        next_version(self.threads.last_version(number))
    }

    /// Whether a thread of the number is live.
    pub(crate) fn is_taken(&self, number: u32) -> bool
        ensures { result ≡ is_some (slot_at self.now number).live }
    {
        self.threads.is_taken(number)
    }

    /// The live thread of an id, with its open call.
    pub(crate) fn live(&self, thread: ThreadId) -> Option<Live>
        ensures { result ≡ live_in self.now thread }
    {
        let space = self.threads.space_of(thread)?;
        Some(Live {
            thread,
            space: u64::from(space),
            call: self.calls[thread.number() as usize],
        })
    }

    /// Whether the thread of an id is live.
    pub(crate) fn is_live(&self, thread: ThreadId) -> bool
        ensures { result ≡ is_some (live_in self.now thread) }
    {
        self.threads.space_of(thread).is_some()
    }

    /// The space of the live thread of an id, 0 where it is not live.
    pub(crate) fn space_in(&self, thread: ThreadId) -> u64
        ensures { result ≡ space_in self.now thread }
    {
        match self.threads.space_of(thread) {
            Some(space) => u64::from(space),
            None => 0,
        }
    }

    /// The open call of the live thread of an id, where it stands.
    pub(crate) fn call_of(&self, thread: ThreadId) -> Option<&Standing>
        ensures { option_copied result ≡ open_call_in self.now thread }
    {
        match self.threads.space_of(thread) {
            Some(_) => self.calls[thread.number() as usize].as_ref(),
            None => None,
        }
    }

    /// The live thread of the number of a place, with its open call.
    pub(crate) fn live_at(&self, place: usize) -> Option<Live>
        requires { place < table_slots }
        ensures { result ≡ (slot_at self.now place).live }
    {
        let thread = self.threads.thread_of(place as u32)?;
        self.live(thread)
    }

    /// The open call of the live thread of a place, where it stands; None past the last place.
    pub(crate) fn held(&self, place: usize) -> Option<&Standing>
        ensures { option_copied result ≡ standing_in (slot_at self.now place) }
    {
        // most places of a walk hold none
        let call = self.calls.get(place)?.as_ref()?;
        if self.threads.is_taken(place as u32) {
            Some(call)
        } else {
            None
        }
    }

    /// Gives the thread of a place an open call, or none.
    pub(crate) fn set_call(&mut self, place: usize, call: Option<Standing>)
        requires { place < table_slots }
        ensures { self.new ≡ slice_set self.old place (calling call (slot_at self.old place)) }
    {
        self.calls[place] = call;
    }

    /// Where the entry of the open call of a thread is looked for first.
    pub(crate) fn hint_of(&self, thread: ThreadId) -> usize {
        let place = thread.number() as usize;
        self.hints.get(place).copied().unwrap_or(0)
    }

    /// Has the entry of the open call of a place looked for first at this place among the entries.
    pub(crate) fn set_hint(&mut self, place: usize, hint: usize)
        ensures { self.new ≡ self.old }
    {
        if let Some(known) = self.hints.get_mut(place) {
            *known = hint;
        }
    }

    /// Sets what a number has that has no live thread: its last version, and a live thread, if
    /// there is one.
    pub(crate) fn make(&mut self, place: usize, version: u32, live: Option<Live>)
        requires within { place < table_slots }
        requires free { (slot_at self.old place).live ≡ None }
        requires live { IsOfNumber place version live }
        ensures { self.new ≡ slice_set self.old place (made_slot version live) }
    {
        match live {
            Some(live) => {
                self.threads
                    .set(place as u32, version, Some(live.space as u32));
                self.calls[place] = live.call;
            }
            None => {
                self.threads.set(place as u32, version, None);
                self.calls[place] = None;
            }
        }
    }

    /// Opens a thread, with no open call.
    pub(crate) fn open(&mut self, thread: ThreadId, space: u64)
        requires { MayOpen self.old thread space }
        ensures { self.new ≡ slice_set self.old (number_of thread) (fresh thread space) }
    {
        let number = thread.number();
        let Ok(_) = self.threads.open(number, space as u32) else {
            unreachable!()
        };
        self.calls[number as usize] = None;
    }

    /// Ends a live thread.
    pub(crate) fn close(&mut self, thread: ThreadId)
        requires { IsSome (live_in self.old thread) }
        ensures { self.new ≡ slice_set self.old (number_of thread)
            (ended (slot_at self.old (number_of thread))) }
    {
        self.threads.close(thread);
        self.calls[thread.number() as usize] = None;
    }
}
