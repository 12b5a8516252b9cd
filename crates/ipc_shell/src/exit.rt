use std::fmt;

/// How a run ended.
#[derive(Clone, Copy)]
pub enum Exit {
    /// At the end of the script, or with a legal trace: status 0.
    Done,
    /// At a line that is no command or no entry, by its number from 1: status 2.
    BadLine(u64),
    /// The program itself got no memory: status 1.
    NoMemory,
    /// A read or a write failed: status 1.
    DeviceFailed,
    /// A trace that was checked is no legal history: status 3.
    Illegal,
    /// The first line of a trace tells a version that is not known: status 2.
    UnknownVersion,
}

impl Exit {
    ghost use Rattle.std.specs.Prelude.{◌≡◌};
    ghost use Rattle.ipc_shell.specs.Exits.{status_of};

    /// The exit status of the program.
    pub fn status(&self) -> u8
        ensures { result ≡ status_of self.now }
    {
        match self {
            Exit::Done => 0,
            Exit::BadLine(_) | Exit::UnknownVersion => 2,
            Exit::NoMemory | Exit::DeviceFailed => 1,
            Exit::Illegal => 3,
        }
    }
}

impl fmt::Display for Exit {
    ghost use Rattle.std.specs.Prelude.{Some};
    ghost use Rattle.ipc_shell.specs.Exits.{exit_text};

    ghost output = { λ exit. Some (exit_text exit) };

    fn fmt<W: fmt::Write>(&self, f: &mut fmt::Formatter<W>) -> fmt::Result {
        match self {
            Exit::Done => write!(f, "l4sh: done"),
            Exit::BadLine(number) => write!(f, "l4sh: bad line {number}"),
            Exit::NoMemory => write!(f, "l4sh: no memory"),
            Exit::DeviceFailed => write!(f, "l4sh: device failed"),
            Exit::Illegal => write!(f, "l4sh: illegal"),
            Exit::UnknownVersion => write!(f, "l4sh: unknown version"),
        }
    }
}
