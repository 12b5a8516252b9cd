//! Where a part of a trace begins: the base of the history, and what memory keeps of it.
ghost use Rattle.std.specs.Prelude.{◌≡◌, ◌<◌, Err, IfOk, drop, length};
ghost use Rattle.ipc_history.specs.Holding.{held_of};
ghost use Rattle.ipc_compact.specs.Compact.{kept_of};
ghost use Rattle.ipc_core.specs.KernelParts.{history_of};
ghost use Rattle.ipc_seats.specs.Parting.{IsPartOf, LetsGoOfAll};

use super::Locked;
use crate::copying::copy_entries;
use crate::not_given::NotGiven;
use crate::part::HeldPart;
use ipc_compact::BaseRoom;
use ipc_core::{Compacted, laws};
use ipc_history::Entry;
use std::alloc::{AllocError, Global};
use std::sync::ledger::Ledger;

impl<C: Ledger, T: Ledger> Locked<C, T> {
    /// Copies of all entries from a place of the history on, counted from 0.
    ///
    /// # Errors
    ///
    /// Memory let go of the first one, or there is none for the copies.
    pub fn rest(&self, alloc: Global, index: usize) -> Result<Vec<Entry>, NotGiven>
        ensures rest { IfOk result (λ rest. rest.items ≡ drop index self.now.kernel.history) }
        ensures gone { result ≡ Err NotGiven.LetGo → index < self.now.kernel.held.whole_from }
    {
        if index < self.kernel.whole_from() {
            return Err(NotGiven::LetGo);
        }
        Ok(copy_entries(alloc, self.kernel.entries_from(index))?)
    }

    /// Marks the whole history, and lets go of all entries that need not be kept. No later answer
    /// changes. Takes no memory.
    pub fn let_go_of_all(&mut self) -> Compacted
        ensures lets_go { LetsGoOfAll self.old.kernel self.new.kernel result }
        ensures compact { held_of (history_of self.new.kernel)
            ≡ kept_of self.new.kernel.history self.new.kernel.taken }
    {
        let Locked { kernel, .. } = self;
        // its contract says that the place is at most the end
        let _ = kernel.whole_from();
        let end = kernel.total();
        kernel.mark(end);
        let done = kernel.compact_marked();
        laws::holds_compact();
        done
    }

    /// The base of the history, in a room, and copies of the entries that are kept.
    ///
    /// # Errors
    ///
    /// No memory for the copies.
    pub fn part(&self, alloc: Global, room: BaseRoom) -> Result<HeldPart, AllocError>
        requires { held_of (history_of self.now.kernel)
            ≡ kept_of self.now.kernel.history self.now.kernel.taken }
        ensures { IfOk result (IsPartOf self.now.kernel.history self.now.kernel.taken) }
    {
        let kept = copy_entries(alloc, self.kernel.held_entries())?;
        Ok(HeldPart::new(self.kernel.base(room), kept))
    }
}
