//! A step that enters a call. Its seat stays where it is, and what it answers is small: most steps
//! are such.
ghost use Rattle.std.specs.Prelude.{◌≡◌, ◌+◌, ◌*◌, ◌≤◌, IfErr, length, vec_capacity};
ghost use Rattle.ipc_history.specs.Legal.{Legal};
ghost use Rattle.ipc_history.specs.Paired.{Paired};
ghost use Rattle.ipc_words.specs.Limits.{max_command_entries};
ghost use Rattle.ipc_core.specs.Obeying.{enter_answer};
ghost use Rattle.ipc_core.specs.declared.command.Command.TheVariants as command;
ghost use Rattle.ipc_seats.specs.Acting.{Acts, AnswersStep, StepDoes};
ghost use Rattle.ipc_seats.specs.Noting.{NotesStep};

use super::{CallSeat, Locked};
use ipc_core::{EnterRefused, Refusal};
use ipc_history::Call;
use ipc_words::ThreadId;
use std::sync::ledger::Ledger;

impl<C: Ledger, T: Ledger> Locked<C, T> {
    /// As [`Locked::act`], of a call. It answers the call's number. The refusals are K6, K7, K8, K5
    /// and K4, with which the call comes back.
    pub fn act_call(
        &mut self,
        now: u64,
        seat: &mut Option<CallSeat<C>>,
        thread: ThreadId,
        call: Call,
        finished: &mut Vec<ThreadId>,
    ) -> Result<u64, EnterRefused>
        ensures acts { Acts self.old.kernel self.new.kernel now seat.old
            (command.Enter thread call) (enter_answer result) }
        ensures answers { AnswersStep seat.old (command.Enter thread call) (enter_answer result)
            seat.new }
        ensures back { IfErr result (λ refused. refused.call ≡ call) }
        ensures few { length self.new.kernel.history ≤ length self.old.kernel.history
            + 2 * max_command_entries }
        ensures paired { Paired self.new.kernel.history }
        ensures legal { Legal self.new.kernel.history }
        ensures notes { NotesStep self.old.kernel self.new.kernel now finished.old.items
            finished.new.items (vec_capacity finished.old) }
    {
        self.tick_for(now, finished);
        let entered = self.enter_by(seat, thread, call);
        self.note_finished(finished);
        let _ = self.history();
        entered
    }

    /// Enters a call by the seat of its thread, without which it is refused with K6.
    #[tactic(auto, unfolding(crate::specs::Acting::StepDoes, crate::specs::Acting::AnswersStep), using(crate::proofs::Steps::still))]
    pub(super) fn enter_by(
        &mut self,
        seat: &mut Option<CallSeat<C>>,
        thread: ThreadId,
        call: Call,
    ) -> Result<u64, EnterRefused>
        ensures does { StepDoes self.old.kernel seat.old (command.Enter thread call)
            (enter_answer result) self.new.kernel }
        ensures answers { AnswersStep seat.old (command.Enter thread call) (enter_answer result)
            seat.new }
        ensures back { IfErr result (λ refused. refused.call ≡ call) }
        ensures few { length self.new.kernel.history ≤ length self.old.kernel.history
            + max_command_entries }
    {
        let refusal = Refusal::NoThread;
        let Some(own) = seat else {
            return Err(EnterRefused { refusal, call });
        };
        if own.thread != thread {
            return Err(EnterRefused { refusal, call });
        }
        match self.enter_again(own, call) {
            Ok(number) => Ok(number),
            Err(refused) => Err(refused),
        }
    }
}
