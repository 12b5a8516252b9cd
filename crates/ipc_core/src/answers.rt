use crate::refusal::Refusal;
use ipc_history::Call;
use ipc_words::{Control, ThreadId};

/// What `exreg` answers (L4 X.2 manual, ExchangeRegisters).
#[derive(Clone, Copy, PartialEq, Eq, Debug)]
pub struct ExregAnswer {
    /// The target's id, nilthread where it is not a live thread of the caller's space.
    pub result: ThreadId,
    /// R where the target was in a receive phase, S where it was in a send phase.
    pub control: Control,
    /// 0, or 2 where the target is not a live thread of the caller's space.
    pub code: u64,
}

/// What `advance` answers.
#[derive(Clone, Copy, PartialEq, Eq, Debug)]
pub enum Advance {
    /// A block was copied.
    Moved,
    /// No transfer goes on.
    Idle,
}

/// A call that was refused is handed back.
#[derive(Drop)]
pub struct EnterRefused {
    /// Why it was refused: K6, K7, K8, K5 or K4.
    pub refusal: Refusal,
    /// The call.
    pub call: Call,
}

impl EnterRefused {
    ghost use Rattle.std.specs.Prelude.{◌≡◌};

    /// The call, refused for this reason.
    pub(crate) fn of(refusal: Refusal, call: Call) -> EnterRefused
        ensures why { result.refusal ≡ refusal }
        ensures back { result.call ≡ call }
    {
        EnterRefused { refusal, call }
    }
}

/// K6: the thread is not live.
#[derive(Clone, Copy)]
pub struct NoThread;

/// What a compaction did.
#[derive(Clone, Copy, PartialEq, Eq, Debug)]
pub struct Compacted {
    /// How many entries were let go.
    pub dropped: usize,
    /// How many entries memory holds.
    pub left: usize,
}
