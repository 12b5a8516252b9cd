//! A step that enters a call.
ghost use Rattle.std.specs.Prelude.{◌≡◌, ◌+◌, ◌*◌, ◌≤◌, ◌||◌, false, length, nat_lt, vec_capacity};
ghost use Rattle.ipc_history.specs.Legal.{Legal};
ghost use Rattle.ipc_core.specs.Obeying.{enter_answer};
ghost use Rattle.ipc_core.specs.declared.command.Command.TheVariants as command;
ghost use Rattle.ipc_seats.specs.Acting.{ActsOn, AnswersStep};
ghost use Rattle.ipc_seats.specs.Noting.{NotesOn, has_begun_since};

use super::Inside;
use ipc_base::Naming;
use ipc_connection::PenPort;
use ipc_core::EnterRefused;
use ipc_history::Call;
use ipc_seats::CallSeat;
use ipc_words::ThreadId;
use std::sync::ledger::Ledger;

impl<C: Naming, T: Ledger, P: PenPort + Drop> Inside<C, T, P> {
    /// As [`Inside::act`], of a call. It answers the call's number.
    pub(super) fn act_call(
        &mut self,
        now: u64,
        seat: &mut Option<CallSeat<C>>,
        thread: ThreadId,
        call: Call,
    ) -> Result<u64, EnterRefused>
        ensures acts { ActsOn self.old.upkeep self.new.upkeep self.old.locked.kernel
            self.new.locked.kernel now seat.old (command.Enter thread call)
            (enter_answer result) }
        ensures answers { AnswersStep seat.old (command.Enter thread call) (enter_answer result)
            seat.new }
        ensures legal { Legal self.new.locked.kernel.history }
        ensures boxes { self.new.boxes ≡ self.old.boxes }
        ensures owners { self.new.owners ≡ self.old.owners }
        ensures finished { NotesOn self.old.upkeep self.new.upkeep self.old.locked.kernel
            self.new.locked.kernel now (command.Enter thread call) self.new.finished.items
            (vec_capacity self.old.finished) }
        ensures strays { self.new.strays ≡ false }
        ensures grown { self.new.has_grown ≡ nat_lt (length self.old.locked.kernel.history)
            (length self.new.locked.kernel.history) }
        ensures begun { self.new.has_begun ≡ has_begun_since self.new.locked.kernel
            (length self.old.locked.kernel.history) }
        ensures goes_on { self.new.begun ≡ (self.new.has_begun || self.old.begun) }
    {
        self.upkeep.note_call(&call);
        self.let_go();
        let before = self.locked.entries();
        self.strays = false;
        self.finished.clear();
        let entered = self
            .locked
            .act_call(now, seat, thread, call, &mut self.finished);
        self.has_grown = self.locked.entries() > before;
        self.has_begun = self.locked.has_begun_since(before);
        self.begun = self.has_begun || self.begun;
        entered
    }
}
