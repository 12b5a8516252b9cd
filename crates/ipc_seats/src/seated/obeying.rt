//! A step: the clock, and then a command by a seat.
ghost use Rattle.std.specs.Prelude.{◌+◌, ◌*◌, ◌≤◌, length, vec_capacity};
ghost use Rattle.ipc_history.specs.Legal.{Legal};
ghost use Rattle.ipc_history.specs.Paired.{Paired};
ghost use Rattle.ipc_core.specs.Effects.{Ticks};
ghost use Rattle.ipc_words.specs.Limits.{max_command_entries};
ghost use Rattle.ipc_core.specs.declared.command.Command.TheVariants as command;
ghost use Rattle.ipc_seats.specs.Acting.{Acts, AnswersStep, GivesSeat, HandsBack, StepDoes};
ghost use Rattle.ipc_seats.specs.Noting.{Notes, NotesStep};

use super::{Answered, CallSeat, Locked};
use ipc_core::{Advance, Answer, Command, EnterRefused, NoThread, Refusal};
use ipc_history::Call;
use ipc_words::{Control, ThreadId};
use std::sync::ledger::Ledger;

impl<C: Ledger, T: Ledger> Locked<C, T> {
    /// Sets the clock to `now`, in microseconds, and then obeys the command by the seat. A call and
    /// an ExchangeRegisters that are not by their own thread's seat are refused with K6, and so is
    /// a take, for which there are take seats. The threads whose calls it finished are put into
    /// `finished`, which has room for them.
    pub fn act(
        &mut self,
        now: u64,
        seat: Option<CallSeat<C>>,
        command: Command,
        finished: &mut Vec<ThreadId>,
    ) -> Answered<C, T>
        ensures acts { Acts self.old.kernel self.new.kernel now seat command result.answer }
        ensures answers { AnswersStep seat command result.answer result.calls }
        ensures takes { GivesSeat result.answer result.takes }
        ensures back { HandsBack command result.answer result.back }
        ensures few { length self.new.kernel.history ≤ length self.old.kernel.history
            + 2 * max_command_entries }
        ensures paired { Paired self.new.kernel.history }
        ensures legal { Legal self.new.kernel.history }
        ensures notes { NotesStep self.old.kernel self.new.kernel now finished.old.items
            finished.new.items (vec_capacity finished.old) }
    {
        self.tick_for(now, finished);
        let answered = self.obey(seat, command);
        self.note_finished(finished);
        let _ = self.history();
        answered
    }

    /// Sets the clock, and notes whose calls that finished.
    pub(super) fn tick_for(&mut self, now: u64, finished: &mut Vec<ThreadId>)
        ensures ticks { Ticks self.old.kernel self.new.kernel now }
        ensures few { length self.new.kernel.history ≤ length self.old.kernel.history
            + max_command_entries }
        ensures notes { Notes self.new.kernel finished.old.items finished.new.items
            (vec_capacity finished.old) }
        ensures capacity { vec_capacity finished.old ≤ vec_capacity finished.new }
    {
        self.tick(now);
        self.note_finished(finished)
    }

    /// Obeys a command by the seat. Each but an open has a frame of its own, so that a connection
    /// that only says HELLO touches none of them.
    #[tactic(auto, unfolding(crate::specs::Acting::StepDoes, crate::specs::Acting::AnswersStep), using(crate::proofs::Steps::still))]
    fn obey(&mut self, seat: Option<CallSeat<C>>, command: Command) -> Answered<C, T>
        ensures does { StepDoes self.old.kernel seat command result.answer self.new.kernel }
        ensures answers { AnswersStep seat command result.answer result.calls }
        ensures takes { GivesSeat result.answer result.takes }
        ensures back { HandsBack command result.answer result.back }
        ensures few { length self.new.kernel.history ≤ length self.old.kernel.history
            + max_command_entries }
    {
        match command {
            Command::Open { number, space } => self.obey_open(seat, number, space),
            Command::Enter(thread, call) => self.obey_enter(seat, thread, call),
            Command::Exreg {
                thread,
                target,
                control,
            } => self.obey_exreg(seat, thread, target, control),
            Command::Broke(thread) => self.obey_broke(seat, thread),
            Command::At(reading) => self.obey_at(seat, reading),
            Command::Advance => self.obey_advance(seat),
            Command::Take(_) => Answered::new(Answer::Refused(Refusal::NoThread), seat),
        }
    }

    #[tactic(auto, unfolding(crate::specs::Acting::StepDoes, crate::specs::Acting::AnswersStep), using(crate::proofs::Steps::still))]
    fn obey_open(&mut self, seat: Option<CallSeat<C>>, number: u64, space: u64) -> Answered<C, T>
        ensures does { StepDoes self.old.kernel seat (command.Open number space)
            result.answer self.new.kernel }
        ensures answers { AnswersStep seat (command.Open number space) result.answer result.calls }
        ensures takes { GivesSeat result.answer result.takes }
        ensures few { length self.new.kernel.history ≤ length self.old.kernel.history
            + max_command_entries }
    {
        match self.open_again(number, space) {
            Ok((thread, calls, takes)) => Answered {
                answer: Answer::Opened(thread),
                calls: Some(calls),
                takes: Some(takes),
                back: None,
            },
            Err(refusal) => Answered::new(Answer::Refused(refusal), seat),
        }
    }

    #[inline(never)]
    #[tactic(auto, unfolding(crate::specs::Acting::StepDoes, crate::specs::Acting::AnswersStep), using(crate::proofs::Steps::still))]
    fn obey_enter(
        &mut self,
        seat: Option<CallSeat<C>>,
        thread: ThreadId,
        call: Call,
    ) -> Answered<C, T>
        ensures does { StepDoes self.old.kernel seat (command.Enter thread call)
            result.answer self.new.kernel }
        ensures answers { AnswersStep seat (command.Enter thread call) result.answer result.calls }
        ensures takes { GivesSeat result.answer result.takes }
        ensures back { HandsBack (command.Enter thread call) result.answer result.back }
        ensures few { length self.new.kernel.history ≤ length self.old.kernel.history
            + max_command_entries }
    {
        let mut seat = seat;
        match self.enter_by(&mut seat, thread, call) {
            Ok(number) => Answered::new(Answer::Entered(number), seat),
            Err(EnterRefused { refusal, call }) => Answered::refused(refusal, seat, call),
        }
    }

    #[inline(never)]
    #[tactic(auto, unfolding(crate::specs::Acting::StepDoes, crate::specs::Acting::AnswersStep), using(crate::proofs::Steps::still))]
    fn obey_exreg(
        &mut self,
        seat: Option<CallSeat<C>>,
        thread: ThreadId,
        target: ThreadId,
        control: Control,
    ) -> Answered<C, T>
        ensures does { StepDoes self.old.kernel seat (command.Exreg thread target control)
            result.answer self.new.kernel }
        ensures answers { AnswersStep seat (command.Exreg thread target control)
            result.answer result.calls }
        ensures takes { GivesSeat result.answer result.takes }
        ensures few { length self.new.kernel.history ≤ length self.old.kernel.history
            + max_command_entries }
    {
        let Some(seat) = seat else {
            return Answered::new(Answer::Refused(Refusal::NoThread), None);
        };
        if seat.thread != thread {
            return Answered::new(Answer::Refused(Refusal::NoThread), Some(seat));
        }
        match self.exreg_again(&seat, target, control) {
            Ok(answer) => Answered::new(Answer::Exchanged(answer), Some(seat)),
            Err(refusal) => Answered::new(Answer::Refused(refusal), Some(seat)),
        }
    }

    #[inline(never)]
    #[tactic(auto, unfolding(crate::specs::Acting::StepDoes, crate::specs::Acting::AnswersStep), using(crate::proofs::Steps::still))]
    fn obey_broke(&mut self, seat: Option<CallSeat<C>>, thread: ThreadId) -> Answered<C, T>
        ensures does { StepDoes self.old.kernel seat (command.Broke thread)
            result.answer self.new.kernel }
        ensures answers { AnswersStep seat (command.Broke thread) result.answer result.calls }
        ensures takes { GivesSeat result.answer result.takes }
        ensures few { length self.new.kernel.history ≤ length self.old.kernel.history
            + max_command_entries }
    {
        match self.break_thread(thread) {
            Ok(()) => Answered::new(Answer::Done, seat),
            Err(NoThread) => Answered::new(Answer::Refused(Refusal::NoThread), seat),
        }
    }

    #[inline(never)]
    #[tactic(auto, unfolding(crate::specs::Acting::StepDoes, crate::specs::Acting::AnswersStep), using(crate::proofs::Steps::still))]
    fn obey_at(&mut self, seat: Option<CallSeat<C>>, reading: u64) -> Answered<C, T>
        ensures does { StepDoes self.old.kernel seat (command.At reading)
            result.answer self.new.kernel }
        ensures answers { AnswersStep seat (command.At reading) result.answer result.calls }
        ensures takes { GivesSeat result.answer result.takes }
        ensures few { length self.new.kernel.history ≤ length self.old.kernel.history
            + max_command_entries }
    {
        self.tick(reading);
        Answered::new(Answer::Done, seat)
    }

    #[inline(never)]
    #[tactic(auto, unfolding(crate::specs::Acting::StepDoes, crate::specs::Acting::AnswersStep), using(crate::proofs::Steps::still))]
    fn obey_advance(&mut self, seat: Option<CallSeat<C>>) -> Answered<C, T>
        ensures does { StepDoes self.old.kernel seat command.Advance result.answer self.new.kernel }
        ensures answers { AnswersStep seat command.Advance result.answer result.calls }
        ensures takes { GivesSeat result.answer result.takes }
        ensures few { length self.new.kernel.history ≤ length self.old.kernel.history
            + max_command_entries }
    {
        Answered::new(Answer::Advanced(self.advance()), seat)
    }

    /// Notes whose calls the last command finished, where there is room for all of them.
    pub(super) fn note_finished(&self, finished: &mut Vec<ThreadId>)
        ensures notes { Notes self.now.kernel finished.old.items finished.new.items
            (vec_capacity finished.old) }
        ensures capacity { vec_capacity finished.old ≤ vec_capacity finished.new }
    {
        // their room was made before: without it a writer would be told later
        let _ = finished.extend_from_slice(self.kernel.finished());
    }
}
