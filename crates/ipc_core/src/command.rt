use crate::answers::{Advance, ExregAnswer};
use crate::refusal::Refusal;
use ipc_history::{Call, Outcome};
use ipc_words::{Control, ThreadId};

/// A command to a kernel: one of its calls, with what it is given.
#[derive(Drop)]
pub enum Command {
    /// Opens the thread of a number, 1 to `MAX_THREAD_NUMBER`, in a space, 1 to `MAX_SPACE`.
    Open {
        number: u64,
        space: u64,
    },
    /// Enters a call of a thread (L4 X.2 manual, Ipc).
    Enter(ThreadId, Call),
    /// Stops phases of a target for a thread (L4 X.2 manual, ExchangeRegisters: S and R).
    Exreg {
        thread: ThreadId,
        target: ThreadId,
        control: Control,
    },
    /// Ends a thread.
    Broke(ThreadId),
    /// Sets the clock, in microseconds.
    At(u64),
    /// Copies a block of the least call in transfer.
    Advance,
    /// Takes the outcome of a thread's last call.
    Take(ThreadId),
}

/// What a kernel answers to a command.
#[derive(Drop)]
pub enum Answer {
    /// The id of the thread that was opened.
    Opened(ThreadId),
    /// The number of the call that was entered.
    Entered(u64),
    /// What ExchangeRegisters answers.
    Exchanged(ExregAnswer),
    /// The thread has ended, or the clock is set.
    Done,
    /// Whether a block was copied.
    Advanced(Advance),
    /// The outcome, where there was one to take.
    Taken(Option<Outcome>),
    /// The command was refused, and changed nothing.
    Refused(Refusal),
}
