//! How a command ends that looks at traces, and what is said of that.
use crate::noted::Fault;
use l4sh_look::Exit;
use std::alloc::{AllocError, Global};
use std::io;
use std::process::ExitCode;

/// How a command ended without a server, and the reason, where one is known.
#[derive(Drop)]
pub enum Ending {
    /// As an exit says. The reason is that of a bad line, or of a file.
    Alone { exit: Exit, reason: Option<String> },
    /// With this status and what is told of it.
    Told { status: u8, text: String },
}

impl From<Exit> for Ending {
    fn from(exit: Exit) -> Ending {
        Ending::Alone { exit, reason: None }
    }
}

/// The exit of an ending, where it has one.
pub fn exit_alone(ending: &Ending) -> Option<Exit> {
    match ending {
        Ending::Alone { exit, .. } => Some(*exit),
        Ending::Told { .. } => None,
    }
}

/// Says on standard error why a command ended, where it did not end well, and answers its status.
pub fn ended<R: Eprint>(rt: &R, ending: &Ending) -> io::Result<ExitCode> {
    match ending {
        Ending::Alone { exit, reason } => ended_alone(rt, *exit, reason),
        Ending::Told { status, text } => {
            rt.eprintln(text)?;
            Ok(ExitCode::from(*status))
        }
    }
}

/// The same of an exit.
pub fn ended_alone<R: Eprint>(rt: &R, exit: Exit, reason: &Option<String>) -> io::Result<ExitCode> {
    match exit {
        Exit::Done | Exit::Illegal => {}
        _ => rt.eprintln(&exit)?,
    }
    tell_reason(rt, reason)?;
    Ok(ExitCode::from(exit.status()))
}

/// Says the reason on standard error, if one is known.
pub fn tell_reason<R: Eprint>(rt: &R, reason: &Option<String>) -> io::Result<()> {
    match reason {
        Some(reason) => rt.eprintln(reason),
        None => Ok(()),
    }
}

/// The same ending, whose reason tells why standard output failed, where that is why it ended.
pub fn of_output(alloc: Global, ending: Ending, fault: &Fault) -> Ending {
    of_device(alloc, ending, "standard output", fault)
}

/// The same of a device of this name.
pub(crate) fn of_device(alloc: Global, ending: Ending, name: &str, fault: &Fault) -> Ending {
    match ending {
        Ending::Alone {
            exit: Exit::DeviceFailed,
            reason: None,
        } => Ending::Alone {
            exit: Exit::DeviceFailed,
            reason: fault_reason(alloc, name, fault),
        },
        _ => ending,
    }
}

/// Why the device of this name failed. None where no call of it failed, or there is no memory.
pub fn fault_reason(alloc: Global, name: &str, fault: &Fault) -> Option<String> {
    let error = fault.error()?;
    format!(in alloc; "{name}: {error}").ok()
}

/// The text and the status of an ending.
pub fn told(status: u8, text: Result<String, AllocError>) -> Ending {
    match text {
        Ok(text) => Ending::Told { status, text },
        Err(_) => Ending::from(Exit::NoMemory),
    }
}
