ghost use Rattle.std.specs.Prelude.{◌≡◌};
ghost use Rattle.ipc_core.specs.RefusalNumbers.{refusal_number};

/// Why the kernel refuses a command. A refused command changes nothing.
#[derive(Clone, Copy, PartialEq, Eq, Debug)]
pub enum Refusal {
    /// K1: a thread number outside 1 to `MAX_THREAD_NUMBER`, or a space outside 1 to `MAX_SPACE`.
    BadNumber,
    /// K2: the number is live.
    NumberTaken,
    /// K3: the versions of the number are used up.
    NumberWorn,
    /// K4: no memory.
    NoMemory,
    /// K5: the history has no room for what the command may bring about.
    HistoryFull,
    /// K6: the thread is not live.
    NoThread,
    /// K7: the thread has an open call, or an outcome that was not yet taken.
    Busy,
    /// K8: the number of the call would pass the limit.
    CallsSpent,
}

/// The greatest number of a refusal.
pub const LAST_REFUSAL: u8 = 8;

impl Refusal {
    /// The number of the refusal, 1 to [`LAST_REFUSAL`], printed after K.
    pub fn number(self) -> u8
        ensures { result ≡ refusal_number self }
    {
        match self {
            Refusal::BadNumber => 1,
            Refusal::NumberTaken => 2,
            Refusal::NumberWorn => 3,
            Refusal::NoMemory => 4,
            Refusal::HistoryFull => 5,
            Refusal::NoThread => 6,
            Refusal::Busy => 7,
            Refusal::CallsSpent => 8,
        }
    }
}
