//! A step that opens a thread. What it answers is small: a connection that only says HELLO makes no
//! other.
ghost use Rattle.std.specs.Prelude.{◌≡◌, ◌+◌, ◌*◌, ◌≤◌, IfOk, length, vec_capacity};
ghost use Rattle.ipc_history.specs.Legal.{Legal};
ghost use Rattle.ipc_history.specs.Paired.{Paired};
ghost use Rattle.ipc_words.specs.Limits.{max_command_entries};
ghost use Rattle.ipc_core.specs.declared.command.Command.TheVariants as command;
ghost use Rattle.ipc_seats.specs.Acting.{Acts, AnswersStep, StepDoes};
ghost use Rattle.ipc_seats.specs.Opening.{open_answer};
ghost use Rattle.ipc_seats.specs.Noting.{NotesStep};

use super::{CallSeat, Locked, TakeSeat};
use ipc_core::Refusal;
use ipc_words::ThreadId;
use std::sync::ledger::Ledger;

impl<C: Ledger, T: Ledger> Locked<C, T> {
    /// As [`Locked::act`], of an open. It answers the thread and the seat of its outcomes. The
    /// refusals are K1, K2, K3, K5 and K4.
    pub fn act_open(
        &mut self,
        now: u64,
        seat: &mut Option<CallSeat<C>>,
        number: u64,
        space: u64,
        finished: &mut Vec<ThreadId>,
    ) -> Result<(ThreadId, TakeSeat<T>), Refusal>
        ensures acts { Acts self.old.kernel self.new.kernel now seat.old
            (command.Open number space) (open_answer result) }
        ensures answers { AnswersStep seat.old (command.Open number space) (open_answer result)
            seat.new }
        ensures takes { IfOk result (λ opened. (opened.1.thread ≡ opened.0)
            × (opened.1.taken ≡ 0)) }
        ensures few { length self.new.kernel.history ≤ length self.old.kernel.history
            + 2 * max_command_entries }
        ensures paired { Paired self.new.kernel.history }
        ensures legal { Legal self.new.kernel.history }
        ensures notes { NotesStep self.old.kernel self.new.kernel now finished.old.items
            finished.new.items (vec_capacity finished.old) }
    {
        self.tick_for(now, finished);
        let opened = self.open_by(seat, number, space);
        self.note_finished(finished);
        let _ = self.history();
        opened
    }

    /// Opens a thread, and leaves the seat of its calls.
    #[tactic(auto, unfolding(crate::specs::Acting::StepDoes, crate::specs::Acting::AnswersStep), using(crate::proofs::Steps::still))]
    fn open_by(
        &mut self,
        seat: &mut Option<CallSeat<C>>,
        number: u64,
        space: u64,
    ) -> Result<(ThreadId, TakeSeat<T>), Refusal>
        ensures does { StepDoes self.old.kernel seat.old (command.Open number space)
            (open_answer result) self.new.kernel }
        ensures answers { AnswersStep seat.old (command.Open number space) (open_answer result)
            seat.new }
        ensures takes { IfOk result (λ opened. (opened.1.thread ≡ opened.0)
            × (opened.1.taken ≡ 0)) }
        ensures few { length self.new.kernel.history ≤ length self.old.kernel.history
            + max_command_entries }
    {
        match self.open_again(number, space) {
            Ok((thread, calls, takes)) => {
                drop(seat.replace(calls));
                Ok((thread, takes))
            }
            Err(refusal) => Err(refusal),
        }
    }
}
