//! Parts of a trace: memory lets go of all that need not be kept, and what is left begins one.
ghost use Rattle.std.specs.Prelude.{◌≡◌, ◌<◌, ◌≤◌, ◌⊎◌, IfOk, IfSome, None, Ok, OnErr, OnOk, length};
ghost use Rattle.ipc_history.specs.Legal.{Legal};
ghost use Rattle.ipc_seats.specs.Parting.{IsBehind, IsPartOf, LetGoOfAll};

use super::Inside;
use ipc_base::Naming;
use ipc_compact::BaseRoom;
use ipc_connection::PenPort;
use ipc_seats::{Behind, HeldPart, NotGiven};
use std::alloc::AllocError;
use std::sync::ledger::Ledger;

impl<C: Naming, T: Ledger, P: PenPort + Drop> Inside<C, T, P> {
    /// Copies of the entries from this place on, and the part that begins behind them. Nobody else
    /// reads them any more: all are marked then, and memory has let go of those that need not be
    /// kept.
    ///
    /// # Errors
    ///
    /// Memory let go of the first entry, or there is none for the copies; nothing has changed.
    pub(crate) fn part_behind(&mut self, index: usize) -> Result<Behind, NotGiven>
        ensures behind { IfOk result (IsBehind self.old.locked.kernel.history
            self.old.locked.kernel.taken index) }
        ensures legal { Legal self.old.locked.kernel.history }
        ensures lets_go { OnOk result (LetGoOfAll self.old.upkeep self.new.upkeep
            self.old.locked.kernel self.new.locked.kernel) }
        ensures err { OnErr result (self.new ≡ self.old) }
        ensures boxes { self.new.boxes ≡ self.old.boxes }
        ensures owners { self.new.owners ≡ self.old.owners }
    {
        // its contract says that the history is legal
        let _ = self.locked.history();
        let rest = self.locked.rest(self.alloc, index)?;
        let room = BaseRoom::new(self.alloc)?;
        let part = self.part_here(room);
        Ok(Behind::new(rest, part))
    }

    /// The part that begins behind the last entry. None where an entry is not marked, since
    /// somebody reads it; nothing has changed then.
    ///
    /// # Errors
    ///
    /// No memory for it.
    pub(crate) fn part_if_marked(&mut self) -> Result<Option<HeldPart>, AllocError>
        ensures part { IfOk result (λ part. IfSome part (IsPartOf self.old.locked.kernel.history
            self.old.locked.kernel.taken)) }
        ensures legal { Legal self.old.locked.kernel.history }
        ensures read { self.old.locked.kernel.held.mark < length self.old.locked.kernel.history
            → self.new ≡ self.old }
        ensures none { self.old.locked.kernel.held.mark < length self.old.locked.kernel.history
            → result ≡ Ok None }
        ensures lets_go { length self.old.locked.kernel.history ≤ self.old.locked.kernel.held.mark
            → OnOk result (LetGoOfAll self.old.upkeep self.new.upkeep self.old.locked.kernel
            self.new.locked.kernel) }
        ensures either { LetGoOfAll self.old.upkeep self.new.upkeep self.old.locked.kernel
            self.new.locked.kernel ⊎ (self.new ≡ self.old) }
        ensures boxes { self.new.boxes ≡ self.old.boxes }
        ensures owners { self.new.owners ≡ self.old.owners }
    {
        // its contract says that the history is legal
        let _ = self.locked.history();
        if self.locked.marked() < self.locked.entries() {
            return Ok(None);
        }
        let room = BaseRoom::new(self.alloc)?;
        match self.part_here(room) {
            Some(part) => Ok(Some(part)),
            None => Err(AllocError),
        }
    }

    /// The part that begins behind the last entry, None where there is no memory for it. Nobody
    /// reads an entry any more that stands now.
    fn part_here(&mut self, room: BaseRoom) -> Option<HeldPart>
        ensures part { IfSome result (IsPartOf self.old.locked.kernel.history
            self.old.locked.kernel.taken) }
        ensures lets_go { LetGoOfAll self.old.upkeep self.new.upkeep self.old.locked.kernel
            self.new.locked.kernel }
        ensures boxes { self.new.boxes ≡ self.old.boxes }
        ensures owners { self.new.owners ≡ self.old.owners }
    {
        let reached = self.locked.entries();
        let done = self.locked.let_go_of_all();
        self.upkeep.restart(done.left, reached);
        match self.locked.part(self.alloc, room) {
            Ok(part) => Some(part),
            Err(_) => None,
        }
    }
}
