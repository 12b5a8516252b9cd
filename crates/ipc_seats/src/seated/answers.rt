//! What became of a step.
ghost use Rattle.std.specs.Prelude.{◌≡◌, None, Some};
ghost use Rattle.ipc_core.specs.declared.command.Answer.TheVariants as answer;
ghost use Rattle.ipc_seats.specs.Acting.{is_idle};

use super::{Answered, CallSeat, TakeSeat};
use ipc_core::{Advance, Answer, Refusal};
use ipc_history::Call;
use std::sync::ledger::Ledger;

impl<C: Ledger, T: Ledger> Answered<C, T> {
    /// An answer, and the seat as it is then.
    pub(super) fn new(answer: Answer, calls: Option<CallSeat<C>>) -> Answered<C, T>
        ensures answer { result.answer ≡ answer }
        ensures calls { result.calls ≡ calls }
        ensures takes { result.takes ≡ None }
        ensures back { result.back ≡ None }
    {
        Answered {
            answer,
            calls,
            takes: None,
            back: None,
        }
    }

    /// A call is refused, and handed back.
    pub(super) fn refused(
        refusal: Refusal,
        calls: Option<CallSeat<C>>,
        call: Call,
    ) -> Answered<C, T>
        ensures answer { result.answer ≡ answer.Refused refusal }
        ensures calls { result.calls ≡ calls }
        ensures back { result.back ≡ Some call }
    {
        Answered {
            answer: Answer::Refused(refusal),
            calls,
            takes: None,
            back: Some(call),
        }
    }

    /// What the kernel answered.
    pub fn answer(&self) -> &Answer
        ensures { result.now ≡ self.now.answer }
    {
        &self.answer
    }

    /// The kernel's answer, the seat by which the step was made or that of the thread that was
    /// opened, and the seat of that thread's outcomes.
    pub fn into_parts(self) -> (Answer, Option<CallSeat<C>>, Option<TakeSeat<T>>)
        ensures answer { result.0 ≡ self.answer }
        ensures calls { result.1 ≡ self.calls }
        ensures takes { result.2 ≡ self.takes }
    {
        let Answered {
            answer,
            calls,
            takes,
            back,
        } = self;
        drop(back);
        (answer, calls, takes)
    }

    /// The call that was refused, and the seat by which it was made.
    pub fn into_call(self) -> (Option<CallSeat<C>>, Option<Call>)
        ensures calls { result.0 ≡ self.calls }
        ensures back { result.1 ≡ self.back }
    {
        let Answered {
            answer,
            calls,
            takes,
            back,
        } = self;
        drop(answer);
        drop(takes);
        (calls, back)
    }

    /// Whether it says that no transfer goes on.
    pub fn is_idle(&self) -> bool
        ensures { result ≡ is_idle self.now.answer }
    {
        matches!(&self.answer, Answer::Advanced(Advance::Idle))
    }
}
