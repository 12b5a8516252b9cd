//! What is read of the history, and which of its entries memory may let go of.
ghost use Rattle.std.specs.Prelude.{◌≡◌, ◌≢◌, ◌<◌, ◌≤◌, is_some, length, slice_get};
ghost use Rattle.std.specs.Prelude.{IfOk};
ghost use Rattle.ipc_history.specs.Holding.{held_of, marked_to};
ghost use Rattle.ipc_history.specs.Legal.{Legal, Quiet, next_moving};
ghost use Rattle.ipc_history.specs.Paired.{Paired};
ghost use Rattle.ipc_history.specs.Threads.{is_live};
ghost use Rattle.ipc_core.specs.Compacting.{Compacts};
ghost use Rattle.ipc_core.specs.KernelParts.{history_of};
ghost use Rattle.ipc_seats.specs.Groups.{IsGroupAt};
ghost use Rattle.ipc_seats.specs.Noting.{has_begun_since};
ghost use Rattle.ipc_waits.specs.FirstDue.{IsLeastDue};
ghost use Rattle.l4sh_state.specs.States.{IsStateOf};

use super::Locked;
use crate::copying::{copy_entry, copy_group};
use crate::not_given::NotGiven;
use crate::noting::has_begun;
use ipc_core::Compacted;
use ipc_history::{Entries, Entry};
use ipc_words::ThreadId;
use l4sh_state::{State, state_in};
use std::alloc::Global;
use std::sync::ledger::Ledger;

impl<C: Ledger, T: Ledger> Locked<C, T> {
    /// The history. Each time the lock is held it is legal, and has the promise.
    pub fn history(&self) -> Entries<'_>
        ensures entries { result ≡ self.now.kernel.history }
        ensures legal { Legal self.now.kernel.history }
        ensures quiet { Quiet self.now.kernel.history }
        ensures paired { Paired self.now.kernel.history }
    {
        self.kernel.history()
    }

    /// What each thread does, by the history.
    pub fn state(&self) -> State
        ensures state { IsStateOf self.now.kernel.history result }
        ensures legal { Legal self.now.kernel.history }
    {
        let _ = self.history();
        state_in(self.kernel.slots())
    }

    /// Whether a transfer has begun, among the entries behind so many, that has not ended among
    /// them; also where memory let go of some of them, so that nobody knows.
    pub fn has_begun_since(&self, before: usize) -> bool
        ensures { result ≡ has_begun_since self.now.kernel before }
    {
        before < self.kernel.whole_from() || has_begun(self.kernel.entries_from(before))
    }

    /// Whether a call is in transfer.
    pub fn is_copying(&self) -> bool
        ensures { result ≡ is_some (next_moving self.now.kernel.history) }
    {
        self.kernel.is_copying()
    }

    /// Whether a thread is live.
    pub fn is_live(&self, thread: ThreadId) -> bool
        ensures live { result ≡ is_live self.now.kernel.history thread }
        ensures legal { Legal self.now.kernel.history }
    {
        let _ = self.history();
        self.kernel.is_live(thread)
    }

    /// The kernel's moment, in microseconds.
    pub fn now(&self) -> u64
        ensures { result ≡ self.now.kernel.moment }
    {
        self.kernel.now()
    }

    /// How many entries the history has, with those that were let go.
    pub fn entries(&self) -> usize
        ensures { result ≡ length self.now.kernel.history }
    {
        self.kernel.total()
    }

    /// The first moment, in microseconds, at which a waiting phase is due; None where none ever is.
    /// Looks at no thread.
    pub fn least_due(&self) -> Option<u64>
        ensures { IsLeastDue self.now.kernel.history result }
    {
        self.kernel.least_due()
    }

    /// How many outcomes were taken.
    pub fn takes(&self) -> u64
        ensures { result ≡ length self.now.kernel.taken }
    {
        self.kernel.takes()
    }

    /// How many entries memory holds.
    pub fn held(&self) -> usize
        ensures { result ≡ length (held_of (history_of self.now.kernel)) }
    {
        self.kernel.held()
    }

    /// Marks the entries before a place of the history, counted from 0: a compaction may let go of
    /// them. The mark does not go back, and nothing else changes. Takes no memory.
    pub fn mark(&mut self, upto: usize)
        ensures { self.new.kernel ≡ record self.old.kernel
            { held = marked_to upto self.old.kernel.held } }
    {
        let Locked { kernel, .. } = self;
        kernel.mark(upto);
    }

    /// The place up to which the entries are marked, 0 at first.
    pub fn marked(&self) -> usize
        ensures { result ≡ self.now.kernel.held.mark }
    {
        self.kernel.marked()
    }

    /// Lets go of the entries before the mark that need not be kept. No later answer changes. Takes
    /// no memory.
    pub fn compact_marked(&mut self) -> Compacted
        ensures { Compacts self.old.kernel self.new.kernel self.old.kernel.held.mark result }
    {
        let Locked { kernel, .. } = self;
        kernel.compact_marked()
    }

    /// A copy of the entry of this place of the history, counted from 0. None where the history has
    /// none there.
    ///
    /// # Errors
    ///
    /// Memory let go of it, or there is none for the copy.
    pub fn entry(&self, alloc: Global, index: usize) -> Result<Option<Entry>, NotGiven>
        ensures entry { IfOk result (λ entry. entry ≡ slice_get self.now.kernel.history index) }
        ensures legal { Legal self.now.kernel.history }
        ensures gone { result ≡ Err NotGiven.LetGo → index < self.now.kernel.held.whole_from }
    {
        let _ = self.history();
        if index < self.kernel.whole_from() {
            return Err(NotGiven::LetGo);
        }
        match self.kernel.entries_from(index).first() {
            Some(entry) => Ok(Some(copy_entry(alloc, entry)?)),
            None => Ok(None),
        }
    }

    /// Copies of the entries from this place of the history on, counted from 0, as many as one
    /// group has: all of them, and at most `MOST_OF_A_GROUP`. No entry where the history has none
    /// there.
    ///
    /// # Errors
    ///
    /// Memory let go of the first one, or there is none for the copies.
    pub fn group(&self, alloc: Global, index: usize) -> Result<Vec<Entry>, NotGiven>
        ensures group { IfOk result (λ group. IsGroupAt self.now.kernel.history index group.items) }
        ensures none { length self.now.kernel.history ≤ index → result ≢ Err NotGiven.NoMemory }
        ensures legal { Legal self.now.kernel.history }
        ensures gone { result ≡ Err NotGiven.LetGo → index < self.now.kernel.held.whole_from }
    {
        let _ = self.history();
        if index < self.kernel.whole_from() {
            return Err(NotGiven::LetGo);
        }
        Ok(copy_group(alloc, self.kernel.entries_from(index))?)
    }
}
