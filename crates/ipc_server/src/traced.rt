//! Serving beside a worker that writes the trace.
ghost use Rattle.std.specs.Prelude.{◌≡◌, ◌<◌};

use crate::ending::{Ending, ending_of};
use crate::service::serve_and_close;
use crate::services::{AllServed, Services};
use ipc_base::{Failures, PortWrite};
use ipc_host::SocketPort;
use ipc_lock::Naming;
use ipc_tracing::{
    Exit, FilePort, Host, Server, ToldFault, Trace, TraceDisk, TraceFault, TraceFiles, start_of,
};
use l4sh_options::ServerOptions;
use std::fs::File;
use std::marker::Brand;
use std::net::{Net, TcpListener, TcpStream};
use std::rt::{Clock, Files};
use std::sync::Wait;
use std::sync::atomic::{AtomicBool, Ordering};
use std::sync::ledger::{Blank, Ledger};
use std::thread::Threads;
use std::time::Duration;
use std::{fmt, thread};

/// How long the worker that watches a pipe sleeps in each turn, in milliseconds.
const PIPE_TURN: u64 = 100;

/// How long the end sleeps in each turn in which it waits for the trace, in milliseconds.
const END_TURN: u64 = 5;

/// After how many of these turns it is told for what the end waits.
const END_TURNS: u32 = 400;

/// Serves the paths, with a trace where one is asked for.
pub(crate) fn serve_as_asked<C: Naming + Send, T: Ledger + Send, R>(
    server: &Server<'_, C, T, SocketPort, R>,
    host: &Host,
    options: &ServerOptions<'_>,
    services: Services<C, SocketPort>,
) -> Ending<C>
where
    R: Threads
        + Wait
        + Clock
        + Files<File = File>
        + TraceDisk
        + Net<Listener = TcpListener, Stream = TcpStream>
        + Print
        + Eprint
        + Sync,
{
    if options.trace.is_some() {
        serve_traced::<C, T, Brand, R>(server, host, options, Blank::new(1), services)
    } else {
        serve_untraced(server, host, options, true, services)
    }
}

/// Serves the paths while no trace is written: none was asked for, or it has stopped already.
fn serve_untraced<C: Naming + Send, T: Ledger + Send, R>(
    server: &Server<'_, C, T, SocketPort, R>,
    host: &Host,
    options: &ServerOptions<'_>,
    is_whole: bool,
    services: Services<C, SocketPort>,
) -> Ending<C>
where
    R: Threads
        + Wait
        + Clock
        + Net<Listener = TcpListener, Stream = TcpStream>
        + Print
        + Eprint
        + Sync,
{
    server.keep_nothing();
    host.trace.followers.close(server.rt);
    ending_of(serve_and_close(server, host, options, services), is_whole)
}

/// Opens the file of the trace, and serves the paths while a worker writes it. The count of the
/// file's failures begins as a blank.
fn serve_traced<C: Naming + Send, T: Ledger + Send, L: Ledger + Send, R>(
    server: &Server<'_, C, T, SocketPort, R>,
    host: &Host,
    options: &ServerOptions<'_>,
    writes: Blank,
    services: Services<C, SocketPort>,
) -> Ending<C>
where
    R: Threads
        + Wait
        + Clock
        + Files<File = File>
        + TraceDisk
        + Net<Listener = TcpListener, Stream = TcpStream>
        + Print
        + Eprint
        + Sync,
    requires writes_name { writes.name ≡ L.name }
    requires writes_parts { (writes.parts ≡ L.parts) × (0 < writes.parts) }
{
    tell_pipe(server.rt, options);
    let files = TraceFiles::new(options, &host.trace.meter, start_of(server));
    let begun = begin_trace(server, host, options, files, Failures::<L>::new(writes));
    if host.guests.is_stopping(server.rt) {
        drop(begun);
        return serve_untraced(server, host, options, true, services);
    }
    match begun {
        Ok(trace) => serve_beside(server, host, options, files, trace, services),
        Err(fault) => {
            let fault = fault.with_reason(host.trace.meter.reason());
            serve_without(server, host, options, fault, services)
        }
    }
}

/// Opens the first file of the trace. A pipe opens once somebody reads it; a signal that comes
/// before that stops the service.
fn begin_trace<'a, C: Naming + Send, T: Ledger + Send, L: Ledger + Send, R>(
    server: &Server<'_, C, T, SocketPort, R>,
    host: &'a Host,
    options: &ServerOptions<'a>,
    files: TraceFiles<'a>,
    failures: Failures<L>,
) -> Result<Trace<FilePort<'a, L>>, TraceFault>
where
    R: Threads + Wait + Clock + TraceDisk + Sync,
{
    let path = options.trace.unwrap_or("");
    if !server.rt.is_pipe(path) {
        return files.begin(server.rt, server.alloc, failures);
    }
    let is_open = AtomicBool::new(false);
    let is_open = &is_open;
    let (begun, ()) = thread::join(
        server.rt,
        move || {
            let begun = files.begin(server.rt, server.alloc, failures);
            is_open.store(true, Ordering::SeqCst);
            begun
        },
        move || watch_pipe(server, host, path, is_open),
    );
    begun
}

/// Stops the service where SIGINT or SIGTERM comes before somebody reads a pipe.
fn watch_pipe<C: Naming, T: Ledger, R: Wait + Clock + TraceDisk>(
    server: &Server<'_, C, T, SocketPort, R>,
    host: &Host,
    path: &str,
    is_open: &AtomicBool,
) {
    if !host.has_blocked_signals(server.alloc) {
        return;
    }
    for _ in server.rt.forever() {
        if is_open.load(Ordering::SeqCst) {
            return;
        }
        if host.has_signal(server.alloc) {
            host.stop(server.rt);
            // it may not have begun to wait yet: then the next turn releases it
            let _ = server.rt.release_pipe(path);
        }
        thread::sleep(server.rt, Duration::from_millis(PIPE_TURN));
    }
}

/// Says on standard error where the trace goes to a pipe, which opens once somebody reads it, and
/// is one file to its end.
fn tell_pipe<R: Eprint + TraceDisk>(rt: &R, options: &ServerOptions<'_>) {
    let path = options.trace.unwrap_or("");
    if !rt.is_pipe(path) {
        return;
    }
    // where standard error fails nobody is told
    let _ = eprintln!(rt; "l4d: {path} is a pipe: l4d waits until somebody reads it");
    if options.trace_size.is_some() {
        let _ = eprintln!(rt; "l4d: {path} is one file to its end: --trace-size ends no pipe");
    }
}

/// Tells why the trace cannot be written, and serves the paths without it, unless it is required.
fn serve_without<C: Naming + Send, T: Ledger + Send, R>(
    server: &Server<'_, C, T, SocketPort, R>,
    host: &Host,
    options: &ServerOptions<'_>,
    fault: TraceFault,
    services: Services<C, SocketPort>,
) -> Ending<C>
where
    R: Threads
        + Wait
        + Clock
        + Net<Listener = TcpListener, Stream = TcpStream>
        + Print
        + Eprint
        + Sync,
{
    stopped(server.rt, host, options, fault);
    if options.trace_required {
        server.shared.close(server.rt);
        return Ending::Failed(Exit::TraceRequired);
    }
    serve_untraced(server, host, options, false, services)
}

/// Serves the paths while a worker writes the trace. Where the worker cannot be started the trace
/// is written at the end.
fn serve_beside<C: Naming + Send, T: Ledger + Send, R, P: PortWrite + Drop + Send>(
    server: &Server<'_, C, T, SocketPort, R>,
    host: &Host,
    options: &ServerOptions<'_>,
    files: TraceFiles<'_>,
    trace: Trace<P>,
    services: Services<C, SocketPort>,
) -> Ending<C>
where
    R: Threads
        + Wait
        + Clock
        + TraceDisk
        + Net<Listener = TcpListener, Stream = TcpStream>
        + Print
        + Eprint
        + Sync,
{
    let is_over = AtomicBool::new(false);
    let is_over = &is_over;
    let (is_whole, served) = thread::join(
        server.rt,
        move || {
            let is_whole = write_trace(server, host, options, files, trace);
            is_over.store(true, Ordering::SeqCst);
            is_whole
        },
        move || {
            let served = serve_and_close(server, host, options, services);
            tell_slow_end(server.rt, host, options, is_over);
            served
        },
    );
    ending_beside(served, is_whole, options.trace_required)
}

/// Says on standard error where the end waits for what the trace is written to.
fn tell_slow_end<R: Wait + Clock + Eprint>(
    rt: &R,
    host: &Host,
    options: &ServerOptions<'_>,
    is_over: &AtomicBool,
) {
    for _ in 0..END_TURNS {
        if is_over.load(Ordering::SeqCst) {
            return;
        }
        thread::sleep(rt, Duration::from_millis(END_TURN));
    }
    let path = options.trace.unwrap_or("");
    host.lines.tell(rt, &SlowEnd { path });
}

/// What is said where the end waits for the trace.
#[derive(Clone, Copy)]
struct SlowEnd<'a> {
    path: &'a str,
}

impl fmt::Display for SlowEnd<'_> {
    fn fmt<W: fmt::Write>(&self, f: &mut fmt::Formatter<W>) -> fmt::Result {
        write!(
            f,
            "l4d: ends once {} has taken the rest of the trace; SIGKILL ends it at once",
            self.path
        )
    }
}

/// How the server ended beside a trace, which may be required.
fn ending_beside<C: Naming>(
    served: Result<AllServed<C, SocketPort>, Exit>,
    is_whole: bool,
    is_required: bool,
) -> Ending<C> {
    if is_required && !is_whole {
        drop(served);
        return Ending::Failed(Exit::TraceRequired);
    }
    ending_of(served, is_whole)
}

/// Writes the trace to its end, and tells where it stopped before. False where it did; where the
/// trace is required the service is then stopped.
fn write_trace<C, T, R, P>(
    server: &Server<'_, C, T, SocketPort, R>,
    host: &Host,
    options: &ServerOptions<'_>,
    files: TraceFiles<'_>,
    trace: Trace<P>,
) -> bool
where
    C: Naming,
    T: Ledger,
    R: Wait + Clock + Eprint + TraceDisk,
    P: PortWrite + Drop,
{
    match files.follow(server, &host.trace, trace) {
        Ok(()) => true,
        Err(fault) => {
            let fault = fault.with_reason(host.trace.meter.reason());
            stopped(server.rt, host, options, fault);
            server.keep_nothing();
            host.trace.followers.close(server.rt);
            if options.trace_required {
                host.stop(server.rt);
            }
            false
        }
    }
}

/// Says on standard error why the trace stopped, and keeps it for those who ask.
fn stopped<R: Wait + Eprint>(rt: &R, host: &Host, options: &ServerOptions<'_>, fault: TraceFault) {
    host.trace.stop.note(rt, fault);
    let path = options.trace.unwrap_or("");
    // where standard error takes nothing, the exit status still says it
    host.lines.tell(rt, &ToldFault { fault, path });
}
