//! How the program ends, and what is said of that.
use crate::live::Talked;
use l4sh_files::{Ending, Fault, ended, fault_reason, of_output, tell_reason};
use std::alloc::Global;
use std::io;
use std::process::ExitCode;

/// How the program ended.
#[derive(Drop)]
pub(crate) enum ShellEnding {
    /// Without a server, or as one who asked it.
    Alone(Ending),
    /// As a thread of a server.
    WithServer(Talked),
}

/// The same ending, whose reason tells why standard output failed, where that is why it ended.
pub(crate) fn with_output_fault(alloc: Global, ending: ShellEnding, fault: &Fault) -> ShellEnding {
    match ending {
        ShellEnding::Alone(ending) => ShellEnding::Alone(of_output(alloc, ending, fault)),
        ShellEnding::WithServer(talked) => {
            ShellEnding::WithServer(of_talk(alloc, talked, fault))
        }
    }
}

/// The same of a talk with a server.
fn of_talk(alloc: Global, talked: Talked, fault: &Fault) -> Talked {
    let Talked { ending, reason } = talked;
    let reason = match (ending, reason) {
        (l4sh_talk::Ending::DeviceFailed, None) => fault_reason(alloc, "standard output", fault),
        (_, reason) => reason,
    };
    Talked { ending, reason }
}

/// Says on standard error why the program ended, where it did not end well, and answers its status.
pub(crate) fn told_ending<R: Eprint>(rt: &R, ending: &ShellEnding) -> io::Result<ExitCode> {
    match ending {
        ShellEnding::Alone(ending) => ended(rt, ending),
        ShellEnding::WithServer(talked) => ended_with_server(rt, talked),
    }
}

/// The same of a thread of a server.
fn ended_with_server<R: Eprint>(rt: &R, talked: &Talked) -> io::Result<ExitCode> {
    match talked.ending {
        l4sh_talk::Ending::Done => {}
        _ => rt.eprintln(&talked.ending)?,
    }
    tell_reason(rt, &talked.reason)?;
    Ok(ExitCode::from(talked.ending.status()))
}
