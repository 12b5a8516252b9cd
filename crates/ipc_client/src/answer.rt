//! What the server answers.
use ipc_frame::IpcrFrame;
use ipc_words::{Control, IpcError, ThreadId};

/// The answer to HELLO.
#[derive(Clone, Copy, PartialEq, Eq, Debug)]
pub enum Greeting {
    /// The id of the connection's thread.
    Welcome(ThreadId),
    /// The kernel refused: the number after K. HELLO may be said again.
    Refused(u8),
}

/// The answer to a call.
#[derive(Drop)]
pub enum Answer {
    /// What became of the call: a message, the end of a call that receives nothing, or a failure
    /// (the flag E of the tag).
    Outcome(IpcrFrame),
    /// The kernel refused the call: the number after K. The thread goes on.
    Refused(u8),
}

/// The answer to ExchangeRegisters.
#[derive(Clone, Copy, PartialEq, Eq, Debug)]
pub enum Registers {
    /// What ExchangeRegisters answers.
    Exchanged {
        /// The thread, or nilthread.
        result: ThreadId,
        /// In which phase it was: S for a send phase, R for a receive phase.
        control: Control,
        /// 0, or 2 where the destination is no thread of the caller's space.
        code: u64,
        /// Its moment, in microseconds; None in version 1.
        moment: Option<u64>,
    },
    /// The kernel refused: the number after K. The thread goes on.
    Refused(u8),
}

/// Why a call that was answered brings no message.
#[derive(Clone, Copy, PartialEq, Eq, Debug)]
pub enum Failure {
    /// The kernel refused the call: the number after K.
    Refused(u8),
    /// The call failed: its ErrorCode.
    Failed(IpcError),
}
