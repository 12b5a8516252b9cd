//! Why a trace stopped, and where those find it who ask for the trace.
use ipc_trace::PutFault;
use std::alloc::{AllocError, Global};
use std::sync::{Mutex, Wait};
use std::{fmt, io};

/// What failed of the file of a trace.
#[derive(Clone, Copy, PartialEq, Eq)]
pub enum Failed {
    /// To open it.
    Opening,
    /// To write it.
    Writing,
    /// To give it, or an older one, its new name.
    Renaming,
}

impl fmt::Display for Failed {
    fn fmt<W: fmt::Write>(&self, f: &mut fmt::Formatter<W>) -> fmt::Result {
        match self {
            Failed::Opening => write!(f, "cannot be opened"),
            Failed::Writing => write!(f, "cannot be written"),
            Failed::Renaming => write!(f, "cannot be renamed"),
        }
    }
}

/// Why a trace stopped.
#[derive(Clone, Copy)]
pub struct TraceFault {
    fault: PutFault,
    /// What failed, and the system's reason for it.
    reason: Option<(Failed, io::Error)>,
}

impl TraceFault {
    /// A call of the file failed.
    pub fn device(failed: Failed, error: io::Error) -> TraceFault {
        TraceFault {
            fault: PutFault::DeviceFailed,
            reason: Some((failed, error)),
        }
    }

    /// The number after TR.
    pub fn number(&self) -> u8 {
        self.fault.number()
    }

    /// The same, with the system's reason for a write that failed, where it has none yet.
    pub fn with_reason(self, reason: Option<io::Error>) -> TraceFault {
        match (self.fault, self.reason, reason) {
            (PutFault::DeviceFailed, None, Some(error)) => {
                TraceFault::device(Failed::Writing, error)
            }
            _ => self,
        }
    }
}

/// The same as it is told, with the path of the file: `l4d: trace TR1`, and in the next line why.
#[derive(Clone, Copy)]
pub struct ToldFault<'a> {
    pub fault: TraceFault,
    pub path: &'a str,
}

impl fmt::Display for ToldFault<'_> {
    fn fmt<W: fmt::Write>(&self, f: &mut fmt::Formatter<W>) -> fmt::Result {
        let ToldFault { fault, path } = self;
        let number = fault.number();
        write!(f, "l4d: trace TR{number}")?;
        match &fault.reason {
            Some((failed, error)) => write!(f, "\n  {path} {failed}: {error}"),
            None => Ok(()),
        }
    }
}

/// The same for one who asks for the trace: in one line.
#[derive(Clone, Copy)]
struct Stopped(TraceFault);

impl fmt::Display for Stopped {
    fn fmt<W: fmt::Write>(&self, f: &mut fmt::Formatter<W>) -> fmt::Result {
        let Stopped(fault) = self;
        let number = fault.number();
        write!(f, "the trace has stopped (TR{number})")?;
        match &fault.reason {
            Some((failed, error)) => write!(f, ": its file {failed}: {error}"),
            None => Ok(()),
        }
    }
}

/// Whether a trace has stopped, and why.
#[derive(Drop)]
pub struct TraceStop {
    fault: Mutex<Option<TraceFault>>,
}

impl TraceStop {
    /// It has not stopped.
    pub fn new() -> TraceStop {
        TraceStop {
            fault: Mutex::new(None),
        }
    }

    /// It has stopped.
    pub fn note<R: Wait>(&self, rt: &R, fault: TraceFault) {
        let mut noted = self.fault.lock(rt);
        *noted = Some(fault);
        drop(noted);
    }

    /// Why it has stopped, if it has.
    pub fn fault<R: Wait>(&self, rt: &R) -> Option<TraceFault> {
        *self.fault.lock(rt)
    }

    /// The same as a line.
    pub fn line<R: Wait>(&self, rt: &R, alloc: Global) -> Result<Option<String>, AllocError> {
        match self.fault(rt) {
            Some(fault) => Ok(Some(format!(in alloc; "{}\n", Stopped(fault))?)),
            None => Ok(None),
        }
    }
}

impl From<PutFault> for TraceFault {
    fn from(fault: PutFault) -> TraceFault {
        TraceFault {
            fault,
            reason: None,
        }
    }
}

impl From<AllocError> for TraceFault {
    fn from(_error: AllocError) -> TraceFault {
        TraceFault::from(PutFault::NoMemory)
    }
}
