//! Who is to be woken, and who rests.
ghost use Rattle.std.specs.Prelude.{◌≡◌, ◌||◌, ◌&&◌, false, is_some, not, true};
ghost use Rattle.ipc_history.specs.Legal.{next_moving};
ghost use Rattle.ipc_seats.specs.Alarms.{Rests, WakesBefore};

use super::Inside;
use ipc_base::Naming;
use ipc_connection::PenPort;
use ipc_seats::Rest;
use std::sync::ledger::Ledger;

impl<C: Naming, T: Ledger, P: PenPort + Drop> Inside<C, T, P> {
    /// Whether a transfer has begun, so that the mover has work.
    pub(crate) fn has_begun(&self) -> bool
        ensures { result ≡ self.now.begun }
    {
        self.begun
    }

    /// Whether a call is in transfer.
    pub(crate) fn is_copying(&self) -> bool
        ensures { result ≡ is_some (next_moving self.now.locked.kernel.history) }
    {
        self.locked.is_copying()
    }

    /// Whether no transfer can begin any more.
    pub(crate) fn is_work_over(&self) -> bool
        ensures { result ≡ (self.now.is_work_over || self.now.closed) }
    {
        self.is_work_over || self.closed
    }

    pub(crate) fn end_work(&mut self)
        ensures over { self.new.is_work_over ≡ true }
        ensures closed { self.new.closed ≡ self.old.closed }
        ensures begun { self.new.begun ≡ self.old.begun }
        ensures awaited { self.new.is_awaited ≡ self.old.is_awaited }
        ensures locked { self.new.locked ≡ self.old.locked }
        ensures boxes { self.new.boxes ≡ self.old.boxes }
        ensures owners { self.new.owners ≡ self.old.owners }
        ensures upkeep { self.new.upkeep ≡ self.old.upkeep }
    {
        self.is_work_over = true;
    }

    pub(crate) fn is_closed(&self) -> bool
        ensures { result ≡ self.now.closed }
    {
        self.closed
    }

    pub(crate) fn close(&mut self)
        ensures closed { self.new.closed ≡ true }
        ensures over { self.new.is_work_over ≡ self.old.is_work_over }
        ensures begun { self.new.begun ≡ self.old.begun }
        ensures awaited { self.new.is_awaited ≡ self.old.is_awaited }
        ensures locked { self.new.locked ≡ self.old.locked }
        ensures boxes { self.new.boxes ≡ self.old.boxes }
        ensures owners { self.new.owners ≡ self.old.owners }
        ensures upkeep { self.new.upkeep ≡ self.old.upkeep }
    {
        self.closed = true;
    }

    /// How long the ticker rests at this moment: until the first one at which a phase is due. An
    /// earlier one that comes meanwhile wakes it.
    pub(crate) fn rest(&mut self, now: u64) -> Rest
        ensures locked { self.new.locked ≡ self.old.locked }
        ensures boxes { self.new.boxes ≡ self.old.boxes }
        ensures owners { self.new.owners ≡ self.old.owners }
        ensures upkeep { self.new.upkeep ≡ self.old.upkeep }
        ensures closed { self.new.closed ≡ self.old.closed }
        ensures over { self.new.is_work_over ≡ self.old.is_work_over }
        ensures begun { self.new.begun ≡ self.old.begun }
        ensures awaited { self.new.is_awaited ≡ self.old.is_awaited }
        ensures rests { Rests self.old.locked.kernel.history now result }
    {
        match self.locked.least_due() {
            None => {
                self.alarm = u64::MAX;
                Rest::Long
            }
            Some(due) if due <= now => {
                self.alarm = 0;
                Rest::Not
            }
            Some(due) => {
                self.alarm = due;
                Rest::For(due - now)
            }
        }
    }

    /// Whether a phase is due before the moment until which the ticker rests.
    pub(super) fn wakes_ticker(&mut self) -> bool
        ensures wakes { WakesBefore self.old.locked.kernel.history self.old.alarm result }
        ensures alarm { result ≡ false → self.new.alarm ≡ self.old.alarm }
        ensures locked { self.new.locked ≡ self.old.locked }
        ensures boxes { self.new.boxes ≡ self.old.boxes }
        ensures owners { self.new.owners ≡ self.old.owners }
        ensures finished { self.new.finished ≡ self.old.finished }
        ensures upkeep { self.new.upkeep ≡ self.old.upkeep }
    {
        let Some(due) = self.locked.least_due() else {
            return false;
        };
        let is_earlier = due < self.alarm;
        if is_earlier {
            self.alarm = due;
        }
        is_earlier
    }

    /// The trace waits for the next entry.
    pub(crate) fn await_entry(&mut self)
        ensures awaited { self.new.is_awaited ≡ true }
        ensures closed { self.new.closed ≡ self.old.closed }
        ensures over { self.new.is_work_over ≡ self.old.is_work_over }
        ensures begun { self.new.begun ≡ self.old.begun }
        ensures locked { self.new.locked ≡ self.old.locked }
        ensures boxes { self.new.boxes ≡ self.old.boxes }
        ensures owners { self.new.owners ≡ self.old.owners }
        ensures upkeep { self.new.upkeep ≡ self.old.upkeep }
    {
        self.is_awaited = true;
    }

    /// Whether the trace has to be told of the last step: it waits, and there are more entries than
    /// before.
    pub(super) fn tells_trace(&mut self) -> bool
        ensures told { result ≡ (self.old.is_awaited && self.old.has_grown) }
        ensures awaits { self.new.is_awaited ≡ (self.old.is_awaited && not self.old.has_grown) }
        ensures alarm { self.new.alarm ≡ self.old.alarm }
        ensures locked { self.new.locked ≡ self.old.locked }
        ensures boxes { self.new.boxes ≡ self.old.boxes }
        ensures owners { self.new.owners ≡ self.old.owners }
        ensures finished { self.new.finished ≡ self.old.finished }
        ensures upkeep { self.new.upkeep ≡ self.old.upkeep }
    {
        let is_told = self.is_awaited && self.has_grown;
        self.is_awaited = self.is_awaited && !is_told;
        is_told
    }
}
