//! Why a trace stops.
ghost use Rattle.std.specs.Prelude.{◌≡◌};
ghost use Rattle.ipc_trace.specs.Faults.{end_number, put_number};

/// Why a line was not put.
#[derive(Clone, Copy, PartialEq, Eq, Debug)]
pub enum PutFault {
    /// TR1: the device failed in this call. A part of the line may stand, and the trace has
    /// stopped.
    DeviceFailed,
    /// TR2: the device failed in an earlier call. Nothing was written.
    Stopped,
    /// TR5: no memory for the text of the line. Nothing was written, and the trace goes on.
    NoMemory,
}

impl PutFault {
    /// The number of the fault: 1, 2 or 5, printed after TR.
    pub fn number(self) -> u8
        ensures { result ≡ put_number self }
    {
        match self {
            PutFault::DeviceFailed => 1,
            PutFault::Stopped => 2,
            PutFault::NoMemory => 5,
        }
    }
}

/// Why a line of a trace is not read.
#[derive(Clone, Copy, PartialEq, Eq, Debug)]
pub enum LineFault {
    /// It spells no entry which a trace of its version may have.
    Bad,
    /// It is the first line, and tells a version that is not known.
    UnknownVersion,
    /// No memory for its entry.
    NoMemory,
}

/// How the reading of a trace ended.
#[derive(Clone, Copy, PartialEq, Eq, Debug)]
pub enum TraceEnd {
    /// At its end, behind a newline or before any byte.
    Whole,
    /// TR1: the device failed.
    DeviceFailed,
    /// TR3: at its end, in a last line that lacks its newline.
    Torn,
    /// TR4: at a line that spells no entry which a trace of its version may have, by its number
    /// from 1.
    BadLine(u64),
    /// TR6: at a first line that tells a version, and none that is known.
    UnknownVersion,
    /// TR5: no memory.
    NoMemory,
}

impl TraceEnd {
    ghost use Rattle.std.specs.Prelude.{◌≡◌};

    /// The number of the end: 1, 3, 4, 5 or 6, printed after TR; None where the trace is whole.
    pub fn number(self) -> Option<u8>
        ensures { result ≡ end_number self }
    {
        match self {
            TraceEnd::Whole => None,
            TraceEnd::DeviceFailed => Some(1),
            TraceEnd::Torn => Some(3),
            TraceEnd::BadLine(_) => Some(4),
            TraceEnd::UnknownVersion => Some(6),
            TraceEnd::NoMemory => Some(5),
        }
    }
}
