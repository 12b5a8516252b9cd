//! What the lock keeps, and the calls that change it. Nobody else makes an [`Answered`] or a
//! [`Taken`].
ghost use Rattle.std.specs.Prelude.{◌≡◌, ◌+◌, ◌≤◌, ◌^◌, false, length, min};
ghost use Rattle.std.specs.Prelude.{IfOk, IfErr, IsOk, OnOk, OnErr};
ghost use Rattle.ipc_history.specs.Calls.{calls_made};
ghost use Rattle.ipc_history.specs.Threads.{is_live};
ghost use Rattle.ipc_core.specs.Effects.{Breaks, Ticks};
ghost use Rattle.ipc_words.specs.Limits.{max_calls, max_command_entries, max_entries};
ghost use Rattle.ipc_core.specs.Obeying.{MayObey, broke_answer, empty_kernel};
ghost use Rattle.ipc_core.specs.declared.command.Answer.TheVariants as answer;
ghost use Rattle.ipc_core.specs.declared.command.Command.TheVariants as command;
ghost use Rattle.ipc_seats.specs.Opens.{opens};

mod again;
mod answers;
mod calling;
mod entering;
mod looking;
mod obeying;
mod opening;
mod parting;
mod seats;

use ipc_base::Memory;
use ipc_core::{Advance, Answer, Kernel, Limits, NoThread, Refusal};
use ipc_history::{Call, Outcome};
use ipc_words::ThreadId;
pub use seats::{CallSeat, TakeSeat};
use std::marker::PhantomData;
use std::sync::ledger::{Blank, Book, Ledger, Share};

/// A kernel, and two ledgers: of the calls that were entered, and of the outcomes that were taken.
///
/// Each book counts what the kernel counts. A book moves only with a seat's share, so an older
/// kernel cannot be put back.
#[derive(Drop)]
pub struct Locked<C: Ledger, T: Ledger> {
    kernel: Kernel,
    calls: Book<C>,
    calls_left: Share<C>,
    takes: Book<T>,
    takes_left: Share<T>,
    pub ghost calls_booked: { calls.total ≡ calls_made kernel.history },
    pub ghost takes_booked: { takes.total ≡ length kernel.taken },
    pub ghost call_parts: { calls_left.parts + opens kernel.history ≡ 2 ^ 63 },
    pub ghost take_parts: { takes_left.parts + opens kernel.history ≡ 2 ^ 63 },
    pub ghost no_calls_left: { calls_left.amount ≡ 0 },
    pub ghost no_takes_left: { takes_left.amount ≡ 0 },
}

/// An outcome that was taken: of which thread, and the how manieth it is. Only `take_seated` makes
/// one.
#[derive(Drop)]
pub struct Taken<T: Ledger> {
    thread: ThreadId,
    amount: u64,
    outcome: Outcome,
    marker: PhantomData<T>,
}

impl<T: Ledger> Taken<T> {
    /// The thread that took it.
    pub fn thread(&self) -> ThreadId
        ensures { result ≡ self.now.thread }
    {
        self.thread
    }

    /// How many outcomes the thread has taken with this one.
    pub fn amount(&self) -> u64
        ensures { result ≡ self.now.amount }
    {
        self.amount
    }

    /// The outcome.
    pub fn into_outcome(self) -> Outcome
        ensures { result ≡ self.outcome }
    {
        let Taken {
            thread: _,
            amount: _,
            outcome,
            marker: _,
        } = self;
        outcome
    }
}

impl<C: Ledger, T: Ledger> Locked<C, T> {
    /// An empty kernel, with the books of two new ledgers. The only refusal is K4.
    pub fn new<M: Memory>(
        memory: M,
        limits: Limits,
        calls: Blank,
        takes: Blank,
    ) -> Result<Self, Refusal>
        requires calls_name { calls.name ≡ C.name }
        requires calls_parts { calls.parts ≡ C.parts }
        requires many_calls { calls.parts ≡ 2 ^ 63 }
        requires takes_name { takes.name ≡ T.name }
        requires takes_parts { takes.parts ≡ T.parts }
        requires many_takes { takes.parts ≡ 2 ^ 63 }
        ensures ok { IfOk result (λ locked. locked.kernel
            ≡ empty_kernel (min limits.entries max_entries) (min limits.calls max_calls)) }
        ensures memory { IfErr result (λ refusal. refusal ≡ Refusal.NoMemory) }
        ensures ample { M.is_ample → IsOk result }
    {
        let kernel = Kernel::new_in(memory, limits)?;
        let (calls, calls_left) = calls.open::<C>();
        let (takes, takes_left) = takes.open::<T>();
        Ok(Locked {
            kernel,
            calls,
            calls_left,
            takes,
            takes_left,
        })
    }
}

impl<C: Ledger, T: Ledger> Locked<C, T> {
    /// Ends the seat's thread. The only refusal is K6.
    pub fn close_seated(&mut self, seat: &CallSeat<C>) -> Result<(), NoThread>
        ensures ok { OnOk result (Breaks self.old.kernel self.new.kernel seat.now.thread) }
        ensures gone { OnErr result (is_live self.old.kernel.history seat.now.thread ≡ false) }
        ensures err { OnErr result (self.new.kernel ≡ self.old.kernel) }
        ensures few { length self.new.kernel.history ≤ length self.old.kernel.history
            + max_command_entries }
    {
        self.break_thread(seat.thread)
    }

    fn break_thread(&mut self, thread: ThreadId) -> Result<(), NoThread>
        ensures obeys { MayObey self.old.kernel (command.Broke thread)
            (broke_answer result) self.new.kernel }
        ensures ok { OnOk result (Breaks self.old.kernel self.new.kernel thread) }
        ensures gone { OnErr result (is_live self.old.kernel.history thread ≡ false) }
        ensures err { OnErr result (self.new.kernel ≡ self.old.kernel) }
        ensures few { length self.new.kernel.history ≤ length self.old.kernel.history
            + max_command_entries }
    {
        let Locked { kernel, .. } = self;
        let ended = kernel.broke(thread);
        let _ = kernel.history();
        ended
    }

    /// Sets the clock, in microseconds.
    fn tick(&mut self, now: u64)
        ensures ticks { Ticks self.old.kernel self.new.kernel now }
        ensures obeys { MayObey self.old.kernel (command.At now) answer.Done self.new.kernel }
        ensures few { length self.new.kernel.history ≤ length self.old.kernel.history
            + max_command_entries }
    {
        let Locked { kernel, .. } = self;
        kernel.at(now);
        let _ = kernel.history();
    }

    fn advance(&mut self) -> Advance
        ensures obeys { MayObey self.old.kernel command.Advance
            (answer.Advanced result) self.new.kernel }
        ensures few { length self.new.kernel.history ≤ length self.old.kernel.history
            + max_command_entries }
    {
        let Locked { kernel, .. } = self;
        let advance = kernel.advance();
        let _ = kernel.history();
        advance
    }
}

/// What became of a step: the kernel's answer, with what goes with it. Only `act` makes one.
#[derive(Drop)]
pub struct Answered<C: Ledger, T: Ledger> {
    answer: Answer,
    calls: Option<CallSeat<C>>,
    takes: Option<TakeSeat<T>>,
    back: Option<Call>,
}
