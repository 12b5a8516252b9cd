//! Why a thread is not opened or restored.
ghost use Rattle.std.specs.Prelude.{◌≡◌};
ghost use Rattle.ipc_threads.specs.Refusal.{refusal_number};

/// Why a thread is not opened, or a table not restored.
#[derive(Clone, Copy, PartialEq, Eq, Debug)]
pub enum ThreadRefusal {
    /// K1: the number is not 1 to `MAX_THREAD_NUMBER`, the space not 1 to `MAX_SPACE`, or the low
    /// six bits of a version to restore are zero.
    BadNumber,
    /// K2: a thread of that number is live, or the number is given twice.
    NumberTaken,
    /// K3: the last version of the number has none after it.
    NumberWorn,
}

impl ThreadRefusal {
    /// The number of the refusal, 1 to 3.
    pub fn number(self) -> u8
        ensures { result ≡ refusal_number self }
    {
        match self {
            ThreadRefusal::BadNumber => 1,
            ThreadRefusal::NumberTaken => 2,
            ThreadRefusal::NumberWorn => 3,
        }
    }
}
