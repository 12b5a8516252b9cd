//! What a connection's writer does next.
ghost use Rattle.std.specs.Prelude.{◌≡◌, ◌∷◌, [], Some, true};
ghost use Rattle.ipc_seats.specs.Boxes.{Begins, OnlyTakes, Works, WritesOn, has_failed};
ghost use Rattle.ipc_seats.specs.Gifts.{gifts_of_work, work_gifts};
ghost use Rattle.ipc_seats.specs.Giving.{GivesOn};

use crate::gift_log::GiftLog;
use crate::post_box::{PostBox, Work};
use crate::seated::Locked;
use ipc_base::Naming;
use ipc_connection::PenPort;
use std::sync::ledger::Ledger;

impl<C: Naming, T: Ledger, P: PenPort + Drop> PostBox<C, T, P> {
    /// What the writer does next: it goes on with a frame that is not at its end, or takes the pen
    /// out with what is next. None while there is nothing to do, or another thread has the pen.
    #[tactic(auto, using(crate::proofs::Moves::only_none, crate::proofs::Giving::works_begun, crate::proofs::Giving::works_on, crate::proofs::Giving::works_over))]
    pub fn work(
        &mut self,
        locked: &mut Locked<C, T>,
        gift_log: &mut GiftLog<C>,
    ) -> Option<Work<C, P>>
        ensures works { Works locked.old.kernel locked.new.kernel self.old self.new result }
        ensures only { OnlyTakes locked.old.kernel locked.new.kernel }
        ensures gives { GivesOn gift_log.old gift_log.new (work_gifts (Some self.old) result) }
    {
        if self.has_failed() {
            Some(Work::Over)
        } else if self.is_idle() {
            self.begin(locked, gift_log)
        } else {
            self.go_on()
        }
    }

    /// What the writer does with a pen that is at its end: it takes the pen out with what is next,
    /// and ends where nothing comes any more.
    #[tactic(auto, using(crate::proofs::Giving::begins_over))]
    fn begin(&mut self, locked: &mut Locked<C, T>, gift_log: &mut GiftLog<C>) -> Option<Work<C, P>>
        ensures begins { Begins locked.old.kernel locked.new.kernel self.old self.new result }
        ensures only { OnlyTakes locked.old.kernel locked.new.kernel }
        ensures gives { GivesOn gift_log.old gift_log.new (gifts_of_work (true ∷ []) result) }
    {
        match self.load(locked, gift_log) {
            Some(pen) => Some(Work::Write(pen)),
            None if self.shut => Some(Work::Over),
            None => None,
        }
    }

    /// Whether the pen lies here and its device has failed.
    fn has_failed(&self) -> bool
        ensures { result ≡ has_failed self.now.pen }
    {
        match &self.pen {
            Some(pen) => pen.has_failed(),
            None => false,
        }
    }

    /// Writes on with the pen, where it lies here.
    fn go_on(&mut self) -> Option<Work<C, P>>
        ensures { WritesOn self.old self.new result }
    {
        let pen = self.pen.take()?;
        Some(Work::Write(pen))
    }
}
