//! Who is told that clients can connect.
use ipc_tracing::{Exit, Host, Listener};
use l4sh_options::ServerOptions;
use std::alloc::Global;
use std::io;
use std::net::Net;
use std::sync::Wait;

/// Says that clients can connect: on standard output, to who wanted to be told by `--ready-fd`, to
/// the service manager and to the log. Of a service that was stopped before nothing is told. An
/// error where standard output does not take it.
pub(crate) fn tell_open<R: Wait + Net + Print + Eprint>(
    rt: &R,
    alloc: Global,
    host: &Host,
    options: &ServerOptions<'_>,
) -> Result<(), Exit> {
    if host.guests.is_stopping(rt) {
        return Ok(());
    }
    println!(rt; "listening {}", options.spaces).map_err(Exit::of_output)?;
    tell_ready(rt, alloc, host, options.spaces);
    if host.is_logged {
        tell_paths(rt, &host.listeners);
    }
    Ok(())
}

/// Says so to who wanted to be told by `--ready-fd`, and to the service manager.
fn tell_ready<R: Net + Eprint>(rt: &R, alloc: Global, host: &Host, spaces: u16) {
    if let Err(error) = host.readiness.tell_starter(alloc, spaces) {
        tell_unready(rt, "--ready-fd", error);
    }
    if let Err(error) = host.readiness.tell_manager(rt) {
        tell_unready(rt, "NOTIFY_SOCKET", error);
    }
}

/// Says on standard error who could not be told that clients can connect, and why.
fn tell_unready<R: Eprint>(rt: &R, whom: &str, error: io::Error) {
    // where standard error fails nothing is told
    let _ = eprintln!(rt; "l4d: {whom}: it cannot be told that l4d listens: {error}");
}

/// Says on standard error where the server listens.
fn tell_paths<R: Eprint>(rt: &R, listeners: &[Listener]) {
    for listener in listeners {
        let path = &listener.door.path;
        // where standard error fails nothing is told
        let _ = eprintln!(rt; "l4d: listens on {path}");
    }
}
