//! How much of a trace is read, told at a terminal.
use crate::terminal::is_told_at_terminal;
use ipc_base::{PortFault, PortRead};
use std::fmt;
use std::rt::Clock;
use std::time::Instant;

/// After so many seconds of a reading it is told how far it is.
const QUIET_SECONDS: u64 = 2;

/// What stands over the line when it goes.
const BLANKS: &str = "\r                                                \r";

const MIB: u64 = 1 << 20;

/// A port that tells on standard error how much of it is read, where that is a terminal and the
/// reading takes more than two seconds. The line is written over each second, and goes at the end
/// of what is read.
#[derive(Drop)]
pub(crate) struct ToldPort<'a, R: Clock + Eprint, P: PortRead> {
    rt: &'a R,
    port: P,
    progress: Progress,
}

/// How far a reading is.
#[derive(Clone, Copy)]
pub(crate) struct Progress {
    // when it began; None where nothing is told of it
    start: Option<Instant>,
    amount: Amount,
    // how many seconds from its start on it is told next
    due: u64,
    is_shown: bool,
}

/// How many bytes were read, and of how many.
#[derive(Clone, Copy)]
struct Amount {
    read: u64,
    size: Option<u64>,
}

impl<'a, R: Clock + Eprint, P: PortRead> ToldPort<'a, R, P> {
    ghost use Rattle.std.specs.Prelude.{◌≡◌};

    /// A port of whose reading this is told.
    pub(crate) fn new(rt: &'a R, port: P, progress: Progress) -> ToldPort<'a, R, P>
        ensures { result.port ≡ port }
    {
        ToldPort { rt, port, progress }
    }

    /// The port alone, once the line is gone.
    pub(crate) fn into_port(self) -> P {
        let ToldPort { rt, port, progress } = self;
        let mut progress = progress;
        progress.end(rt);
        port
    }
}

impl<R: Clock + Eprint, P: PortRead> PortRead for ToldPort<'_, R, P> {
    ghost remaining = { λ told. P.remaining told.port };

    ghost failures = { λ told. P.failures told.port };

    ghost reads_left = { λ told. P.reads_left told.port };

    fn read(&mut self, buf: &mut [u8]) -> Result<usize, PortFault> {
        let count = self.port.read(buf)?;
        self.progress.note(self.rt, count);
        Ok(count)
    }
}

impl Progress {
    /// Nothing is told.
    pub(crate) fn untold() -> Progress {
        Progress {
            start: None,
            amount: Amount {
                read: 0,
                size: None,
            },
            due: QUIET_SECONDS,
            is_shown: false,
        }
    }

    /// Of a reading that begins now, of so many bytes where that is known.
    pub(crate) fn new<R: Clock>(rt: &R, size: Option<u64>) -> Progress {
        let start = if is_told_at_terminal() {
            Instant::now(rt).ok()
        } else {
            None
        };
        Progress {
            start,
            amount: Amount { read: 0, size },
            ..Progress::untold()
        }
    }

    /// Takes note of a piece of so many bytes; none come at the end.
    fn note<R: Clock + Eprint>(&mut self, rt: &R, count: usize) {
        if count == 0 {
            self.end(rt);
            return;
        }
        self.amount.read = self.amount.read.saturating_add(count as u64);
        match self.seconds(rt) {
            Some(seconds) if seconds >= self.due => {
                self.due = seconds.saturating_add(1);
                self.is_shown = true;
                let _ = rt.eprint(&self.amount);
            }
            _ => {}
        }
    }

    /// How many seconds ago it began, where it is told.
    fn seconds<R: Clock>(&self, rt: &R) -> Option<u64> {
        let spent = self.start?.elapsed(rt).ok()?;
        Some(spent.as_secs())
    }

    /// Takes the line away, if it stands there.
    fn end<R: Eprint>(&mut self, rt: &R) {
        if self.is_shown {
            self.is_shown = false;
            let _ = rt.eprint(BLANKS);
        }
    }
}

impl fmt::Display for Amount {
    fn fmt<W: fmt::Write>(&self, f: &mut fmt::Formatter<W>) -> fmt::Result {
        let (read, mib) = (self.read, self.read / MIB);
        match self.size {
            Some(size) if size < MIB => write!(f, "\rl4sh: {read} of {size} bytes read"),
            Some(size) => {
                let size = size.div_ceil(MIB);
                write!(f, "\rl4sh: {mib} of {size} MiB read")
            }
            None if mib == 0 => write!(f, "\rl4sh: {read} bytes read"),
            // over the longer line in bytes
            None => write!(f, "\rl4sh: {mib} MiB read        "),
        }
    }
}
