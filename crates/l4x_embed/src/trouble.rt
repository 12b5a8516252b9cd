//! Why the program ends before it has shown all.
use ipc_core::Refusal;
use ipc_trace::PutFault;
use std::alloc::{AllocError, AllocFailed};

/// Why the program ends before it has shown all.
#[derive(Clone, Copy)]
pub(crate) enum Trouble {
    /// There is no memory.
    NoMemory,
    /// Standard output failed.
    NoOutput,
    /// A part did not do what its contract says here.
    Unexpected,
}

impl Trouble {
    /// What is said of it.
    pub(crate) fn words(self) -> &'static str {
        match self {
            Trouble::NoMemory => "no memory",
            Trouble::NoOutput => "standard output failed",
            Trouble::Unexpected => "a call gave what it does not give here",
        }
    }
}

impl From<PutFault> for Trouble {
    fn from(fault: PutFault) -> Trouble {
        match fault {
            PutFault::NoMemory => Trouble::NoMemory,
            PutFault::DeviceFailed | PutFault::Stopped => Trouble::NoOutput,
        }
    }
}

impl From<Refusal> for Trouble {
    fn from(refusal: Refusal) -> Trouble {
        match refusal {
            Refusal::NoMemory => Trouble::NoMemory,
            _ => Trouble::Unexpected,
        }
    }
}

impl From<AllocError> for Trouble {
    fn from(_: AllocError) -> Trouble {
        Trouble::NoMemory
    }
}

impl<T: Drop> From<AllocFailed<T>> for Trouble {
    fn from(failed: AllocFailed<T>) -> Trouble {
        drop(failed);
        Trouble::NoMemory
    }
}
