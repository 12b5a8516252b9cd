//! Who rests, and whose work is over: nothing is done to kernel or boxes.
ghost use Rattle.std.specs.Prelude.{◌≡◌, true};
ghost use Rattle.ipc_seats.specs.Alarms.{Rests};
ghost use Rattle.ipc_lock.specs.Turns.{Runs};

use super::Logged;
use ipc_base::Naming;
use ipc_connection::PenPort;
use ipc_seats::Rest;
use std::sync::ledger::Ledger;

impl<C: Naming, T: Ledger, P: PenPort + Drop> Logged<C, T, P> {
    pub(crate) fn end_work(&mut self)
        ensures { self.new ≡ record self.old { is_work_over = true } }
    {
        self.inside.end_work();
    }

    pub(crate) fn close(&mut self)
        ensures { self.new ≡ record self.old { closed = true } }
    {
        self.inside.close();
    }

    /// How long the ticker rests at this moment: until the first one at which a phase is due. An
    /// earlier one that comes meanwhile wakes it.
    pub(crate) fn rest(&mut self, now: u64) -> Rest
        ensures stays { self.new ≡ self.old }
        ensures rests { Rests self.old.inside.kernel.history now result }
        ensures runs { Runs C P self.new.log self.new.inside }
    {
        self.inside.rest(now)
    }

    /// The trace waits for the next entry.
    pub(crate) fn await_entry(&mut self)
        ensures { self.new ≡ record self.old { is_awaited = true } }
    {
        self.inside.await_entry();
    }
}
