use ipc_shell::Exit as RunExit;
use std::fmt;

/// How a command of `l4sh` ended: as a run of `ipc_shell`, or in a way of its own.
#[derive(Clone, Copy)]
pub enum Exit {
    /// At the end of the script, or with a legal trace: status 0.
    Done,
    /// At a line that is no command or no entry, by its number from 1: status 2.
    BadLine(u64),
    /// The program itself got no memory: status 1.
    NoMemory,
    /// A read or a write failed: status 1.
    DeviceFailed,
    /// A trace that was checked is no legal history: status 3.
    Illegal,
    /// The list of the threads of a chart has a word that is no thread id: status 2.
    BadThreads,
    /// A chart would have no row: status 2.
    NoChart(ChartFault),
    /// A word that was to be explained, or made a tag or a period of, is none, or options exclude
    /// each other: status 2.
    BadWord,
    /// The first line of a trace tells a version that is not known: status 2.
    UnknownVersion,
    /// The line of this number, from 1, of a trace does not follow those before it, which are those
    /// of so many entries and of the version: status 3.
    IllegalLine { number: u64, entries: u64 },
    /// What was asked for is printed, of the whole lines of a trace up to this number, from 1:
    /// behind them stands a line without its newline, so what came later is missing. Status 5.
    Torn(u64),
}

/// Why nothing is drawn.
#[derive(Clone, Copy)]
pub enum ChartFault {
    /// The first entry that was asked for is behind the last.
    Reversed,
    /// The first entry that was asked for is past the end: the trace has so many.
    PastTheEnd(u64),
    /// No entry within the range has a row, or none is of the threads that were asked for.
    NoRow,
}

impl From<RunExit> for Exit {
    fn from(exit: RunExit) -> Exit {
        match exit {
            RunExit::Done => Exit::Done,
            RunExit::BadLine(number) => Exit::BadLine(number),
            RunExit::NoMemory => Exit::NoMemory,
            RunExit::DeviceFailed => Exit::DeviceFailed,
            RunExit::Illegal => Exit::Illegal,
            RunExit::UnknownVersion => Exit::UnknownVersion,
        }
    }
}

impl Exit {
    ghost use Rattle.std.specs.Prelude.{◌≡◌};
    ghost use Rattle.l4sh_look.specs.Exits.{status_of};

    /// The exit status of the program.
    pub fn status(&self) -> u8
        ensures { result ≡ status_of self.now }
    {
        match self {
            Exit::Done => RunExit::Done.status(),
            Exit::BadLine(number) => RunExit::BadLine(*number).status(),
            Exit::NoMemory => RunExit::NoMemory.status(),
            Exit::DeviceFailed => RunExit::DeviceFailed.status(),
            Exit::Illegal => RunExit::Illegal.status(),
            Exit::UnknownVersion => RunExit::UnknownVersion.status(),
            Exit::BadThreads | Exit::NoChart(_) | Exit::BadWord => 2,
            Exit::IllegalLine { .. } => 3,
            Exit::Torn(_) => 5,
        }
    }
}

impl fmt::Display for Exit {
    ghost use Rattle.std.specs.Prelude.{Some};
    ghost use Rattle.l4sh_look.specs.Exits.{exit_text};

    ghost output = { λ exit. Some (exit_text exit) };

    fn fmt<W: fmt::Write>(&self, f: &mut fmt::Formatter<W>) -> fmt::Result {
        match self {
            Exit::Done => write!(f, "{}", RunExit::Done),
            Exit::BadLine(number) => write!(f, "{}", RunExit::BadLine(*number)),
            Exit::NoMemory => write!(f, "{}", RunExit::NoMemory),
            Exit::DeviceFailed => write!(f, "{}", RunExit::DeviceFailed),
            Exit::Illegal => write!(f, "{}", RunExit::Illegal),
            Exit::BadThreads => write!(f, "l4sh: bad list of threads"),
            Exit::NoChart(_) => write!(f, "l4sh: nothing to draw"),
            Exit::BadWord => write!(f, "l4sh: bad word"),
            Exit::UnknownVersion => write!(f, "{}", RunExit::UnknownVersion),
            Exit::IllegalLine { number, .. } => {
                write!(f, "l4sh: line {number} does not follow those before it")
            }
            Exit::Torn(number) => {
                write!(f, "l4sh: torn: what came after line {number} is not here")
            }
        }
    }
}
