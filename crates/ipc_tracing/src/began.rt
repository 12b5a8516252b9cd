//! When moment 0 was, for who asks, and in a file beside each file of a trace.
use crate::server::Server;
use crate::trace_disk::TraceDisk;
use ipc_host::SocketPort;
use ipc_lock::Naming;
use l4sh_state::Start;
use std::alloc::{AllocError, Global};
use std::io;
use std::io::Write;
use std::rt::Clock;
use std::sync::Wait;
use std::sync::ledger::Ledger;

/// What is said where the system tells no time of day.
const NO_TIME: &str = "no time is known\n";

/// When moment 0 was, by the clock of now. None where the system tells no time of day.
pub fn start_of<C: Naming, T: Ledger, R: Wait + Clock>(
    server: &Server<'_, C, T, SocketPort, R>,
) -> Option<Start> {
    Start::of_clock(server.rt, server.now())
}

/// The same as a line, for one who asks.
pub fn began_text<C: Naming, T: Ledger, R: Wait + Clock>(
    server: &Server<'_, C, T, SocketPort, R>,
) -> Result<String, AllocError> {
    match start_of(server) {
        Some(start) => format!(in server.alloc; "{start}\n"),
        None => String::from_str(server.alloc, NO_TIME),
    }
}

/// Writes when moment 0 was beside a file of a trace, where that is a regular one. Where it fails
/// nobody is told: the trace is whole without it.
pub(crate) fn put_began<R: TraceDisk>(rt: &R, alloc: Global, path: &str, start: Option<Start>) {
    if !rt.is_regular(path) {
        return;
    }
    let written = match start {
        Some(start) => write_began(rt, alloc, path, start),
        None => drop_began(rt, alloc, path),
    };
    // who reads it then learns that no time is known
    let _ = written;
}

fn write_began<R: TraceDisk>(rt: &R, alloc: Global, path: &str, start: Start) -> io::Result<()> {
    let name = beside(alloc, path)?;
    let line = format!(in alloc; "{start}\n")?;
    let mut file = rt.make_file(name.as_str())?;
    file.write_all(line.as_bytes())
}

/// The file beside one of a trace gets the name beside that one's new name. Where it is not there,
/// none stands there.
pub(crate) fn rename_began<R: TraceDisk>(rt: &R, alloc: Global, from: &str, to: &str) {
    if move_began(rt, alloc, from, to).is_err() {
        let _ = drop_began(rt, alloc, to);
    }
}

fn move_began<R: TraceDisk>(rt: &R, alloc: Global, from: &str, to: &str) -> io::Result<()> {
    let (from, to) = (beside(alloc, from)?, beside(alloc, to)?);
    rt.rename_file(from.as_str(), to.as_str())
}

/// Removes the file beside one of a trace.
pub(crate) fn drop_began<R: TraceDisk>(rt: &R, alloc: Global, path: &str) -> io::Result<()> {
    let name = beside(alloc, path)?;
    rt.drop_file(name.as_str())
}

/// The name of the file beside one of a trace.
fn beside(alloc: Global, path: &str) -> io::Result<String> {
    Ok(format!(in alloc; "{path}.began")?)
}
