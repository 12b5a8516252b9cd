//! The workers of a server beside those of its connections and of its trace: one for each path, the
//! ticker and the mover.
ghost use Rattle.std.specs.Prelude.{◌≡◌, [], Some, option_map};
ghost use Rattle.ipc_server.specs.Doing.{ServesOne};
ghost use Rattle.ipc_server.specs.Services.{ServesAll};

use crate::admitting::{Newcomer, admit, miss};
use crate::control::start_answering;
use crate::counters::counters_now;
use crate::lacking::{CameBy, tell_lack};
use crate::lag::Lag;
use crate::probe::probe;
use crate::ready::tell_open;
use crate::served::Served;
use crate::services::{AllServed, Services};
use crate::serving::{Ports, serve_connection, start_worker};
use crate::socket::{Guest, SocketGate};
use crate::working::{Alarm, OverGate, Worker};
use ipc_host::{EagerStream, SocketPort};
use ipc_lock::Naming;
use ipc_session::{Open, move_loop, tick_loop};
use ipc_tracing::{Exit, Host, Listener, Server};
use l4sh_options::ServerOptions;
use std::net::{Net, TcpListener, TcpStream};
use std::os::unix::net::UnixStream;
use std::rt::Clock;
use std::sync::atomic::{AtomicBool, Ordering};
use std::sync::ledger::Ledger;
use std::sync::{Arc, Mutex, Wait};
use std::thread;
use std::thread::{Scope, Threads};
use std::time::Duration;

/// How long the worker that watches sleeps in each turn, in milliseconds.
const WATCH_TURN: u64 = 100;

/// How often counters are told, in seconds.
const LOG_TURN: u64 = 60;

/// How often the last counters look whether the trace has caught up, and how long they sleep before
/// each further look, in milliseconds.
const TRACE_TURNS: u64 = 100;

const TRACE_TURN: u64 = 10;

/// Serves all paths until each has had its connections and these have ended, or the service was
/// stopped. It is told once all workers are there; an error where one could not be started, or it
/// could not be told. The connections that were served come back, all of one log: each that the log
/// knows is among them, once, and was served as it says. Where a client of the program's own is
/// asked for, it is noted once the word that it got was printed.
pub fn serve_all<C: Naming + Send, T: Ledger + Send, R>(
    server: &Server<'_, C, T, SocketPort, R>,
    host: &Host,
    options: &ServerOptions<'_>,
    is_told: &AtomicBool,
    services: Services<C, SocketPort>,
) -> (Result<(), Exit>, AllServed<C, SocketPort>)
where
    R: Threads
        + Wait
        + Clock
        + Net<Listener = TcpListener, Stream = TcpStream>
        + Print
        + Eprint
        + Sync,
    ensures { ServesAll C SocketPort result.1.log result.1.all }
{
    let over = AtomicBool::new(false);
    let over = &over;
    thread::scope(
        thread::scope_env(),
        server.rt,
        |scope|
            ensures { ServesAll C SocketPort result.1.log result.1.all }
        {
            let services = Mutex::new(services);
            let begun = if start_others(scope, server, host, over) {
                accept_all(server, host, options, is_told, &services)
            } else {
                Err(Exit::NoWorker)
            };
            host.finish(server.rt);
            over.store(true, Ordering::SeqCst);
            (begun, services.into_inner().end_work(server))
        },
    )
}

/// Starts the workers that no space has: the ticker, the mover, and those that watch, tell counters
/// and answer who asks, where they are wanted. False where one could not be started.
fn start_others<'s, E, C: Naming + Send, T: Ledger + Send, R>(
    scope: &Scope<'s, E>,
    server: &'s Server<'_, C, T, SocketPort, R>,
    host: &'s Host,
    over: &'s AtomicBool,
) -> bool
where
    R: Threads + Wait + Clock + Eprint + Sync,
{
    let ticker = start_worker(scope, move || tick(server, over)).is_ok();
    let mover = start_worker(scope, move || move_blocks(server)).is_ok();
    let watcher = !is_watched(server, host)
        || start_worker(scope, move || watch(server, host)).is_ok();
    let logger = !host.is_logged || start_worker(scope, move || log_counters(server, host)).is_ok();
    let answers = match &host.control {
        Some(door) => start_answering(scope, server, host, door),
        None => true,
    };
    ticker && mover && watcher && logger && answers
}

/// Whether there is something to watch: signals, or a trace.
fn is_watched<C: Naming, T: Ledger, R: Wait>(
    server: &Server<'_, C, T, SocketPort, R>,
    host: &Host,
) -> bool {
    host.has_blocked_signals(server.alloc) || host.trace.goes_on(server.rt)
}

/// Stops the service once SIGINT or SIGTERM has come; tells where connections wait for the trace.
fn watch<C: Naming, T: Ledger, R: Wait + Clock + Eprint>(
    server: &Server<'_, C, T, SocketPort, R>,
    host: &Host,
) {
    let mut lag = Lag::new();
    for _ in server.rt.forever() {
        let turn = Duration::from_millis(WATCH_TURN);
        if host.guests.wait_finished(server.rt, turn) {
            return;
        }
        if host.has_signal(server.alloc) {
            host.stop(server.rt);
            return;
        }
        let entries = server.shared.entries(server.rt) as u64;
        lag.look(server.rt, host, entries);
    }
}

/// Tells counters once a minute, and at the end, once the trace has caught up if it soon does.
fn log_counters<C: Naming, T: Ledger, R: Wait + Clock + Eprint>(
    server: &Server<'_, C, T, SocketPort, R>,
    host: &Host,
) {
    for _ in server.rt.forever() {
        let is_over = host
            .guests
            .wait_finished(server.rt, Duration::from_secs(LOG_TURN));
        if is_over {
            await_trace(server, host);
        }
        host.lines.tell(server.rt, &counters_now(server, host));
        if is_over {
            return;
        }
    }
}

/// Waits until no entry is left to be put in the trace, for a second at most.
fn await_trace<C: Naming, T: Ledger, R: Wait + Clock>(
    server: &Server<'_, C, T, SocketPort, R>,
    host: &Host,
) {
    for _ in 0..TRACE_TURNS {
        let entries = server.shared.entries(server.rt) as u64;
        if host.trace.behind(entries) == Some(0) || !host.trace.goes_on(server.rt) {
            return;
        }
        thread::sleep(server.rt, Duration::from_millis(TRACE_TURN));
    }
}

/// Tells the kernel the time where a phase is due, for the timeouts.
fn tick<C: Naming, T: Ledger, R: Wait + Clock>(
    server: &Server<'_, C, T, SocketPort, R>,
    over: &AtomicBool,
) {
    let mut alarm = Alarm::new(server);
    let mut work_port = Worker::new(server);
    tick_loop(&mut alarm, &mut work_port, &mut OverGate::new(over));
}

/// Copies blocks while transfers go on that nobody else copies, and else waits for one.
fn move_blocks<C: Naming, T: Ledger, R: Wait + Clock>(server: &Server<'_, C, T, SocketPort, R>) {
    let mut work_port = Worker::new(server);
    let _ = move_loop(&mut work_port, &mut Open::new(u64::MAX));
}

/// One worker for each path, until all have ended; it is told once all are there. An error where
/// one could not be started, or it could not be told; the others are then stopped.
fn accept_all<C: Naming + Send, T: Ledger + Send, R>(
    server: &Server<'_, C, T, SocketPort, R>,
    host: &Host,
    options: &ServerOptions<'_>,
    is_told: &AtomicBool,
    services: &Mutex<Services<C, SocketPort>>,
) -> Result<(), Exit>
where
    R: Threads
        + Wait
        + Clock
        + Net<Listener = TcpListener, Stream = TcpStream>
        + Print
        + Eprint
        + Sync,
{
    thread::scope(thread::scope_env(), server.rt, |scope| {
        let begun = start_all(scope, server, host, options, is_told, services);
        if begun.is_err() {
            host.stop(server.rt);
        }
        begun
    })
}

/// Starts a worker for each path, tells that clients can connect, and starts the client of the
/// program's own where it is asked for.
fn start_all<'s, E, C: Naming + Send, T: Ledger + Send, R>(
    scope: &Scope<'s, E>,
    server: &'s Server<'_, C, T, SocketPort, R>,
    host: &'s Host,
    options: &ServerOptions<'_>,
    is_told: &'s AtomicBool,
    services: &'s Mutex<Services<C, SocketPort>>,
) -> Result<(), Exit>
where
    R: Threads
        + Wait
        + Clock
        + Net<Listener = TcpListener, Stream = TcpStream>
        + Print
        + Eprint
        + Sync,
{
    for listener in &host.listeners {
        let started = start_worker(scope, move || accept(server, host, services, listener));
        if started.is_err() {
            return Err(Exit::NoWorker);
        }
    }
    tell_open(server.rt, server.alloc, host, options)?;
    if !options.probe {
        return Ok(());
    }
    match start_worker(scope, move || tell_probe(server, host, is_told)) {
        Ok(()) => Ok(()),
        Err(_) => Err(Exit::NoWorker),
    }
}

/// Prints the word that the client of the program's own gets over the first path, and notes that it
/// was printed.
fn tell_probe<C: Naming, T: Ledger, R>(
    server: &Server<'_, C, T, SocketPort, R>,
    host: &Host,
    is_told: &AtomicBool,
)
where
    R: Threads + Wait + Clock + Net<Listener = TcpListener, Stream = TcpStream> + Print + Sync,
{
    let rt = server.rt;
    let Some(listener) = host.listeners.first() else {
        return;
    };
    if let Some(word) = probe(rt, server.alloc, listener.door.path.as_str()) {
        let is_printed = println!(rt; "probe {word:#x}").is_ok();
        is_told.store(is_printed, Ordering::SeqCst);
    }
}

/// Takes connections until the path has had its number, if it has one, or the service is stopped,
/// and starts a worker for each. Who comes behind that number is refused. An accept that fails
/// counts for nothing: it is tried again once a connection has ended, or after 10 milliseconds.
fn accept<C: Naming + Send, T: Ledger + Send, R>(
    server: &Server<'_, C, T, SocketPort, R>,
    host: &Host,
    services: &Mutex<Services<C, SocketPort>>,
    listener: &Listener,
)
where
    R: Threads + Wait + Clock + Eprint + Sync,
{
    let rt = server.rt;
    thread::scope(thread::scope_env(), rt, |scope| {
        let mut taken = 0u16;
        for _ in rt.forever() {
            if host.guests.is_stopping(rt) {
                return;
            }
            if host.closes_after(taken) {
                host.close_path(rt, listener);
                return;
            }
            match listener.door.accept() {
                Ok(stream) => {
                    taken = taken.saturating_add(1);
                    if let Some(newcomer) = admit(server, host, listener.space, stream) {
                        let (space, ticket) = (newcomer.space, newcomer.ticket);
                        let started = start_worker(
                            scope,
                            move || serve_guest(server, host, services, newcomer),
                        );
                        if let Err(error) = started {
                            host.guests.leave(rt, ticket);
                            tell_lack(rt, host, CameBy::Space(space), error);
                        }
                    }
                }
                Err(error) => miss(server, host, error),
            }
        }
    });
}

/// Serves a connection to its end.
fn serve_guest<C, T, R>(
    server: &Server<'_, C, T, SocketPort, R>,
    host: &Host,
    services: &Mutex<Services<C, SocketPort>>,
    newcomer: Newcomer,
)
where
    C: Naming + Send,
    T: Ledger + Send,
    R: Threads + Wait + Clock + Eprint + Sync,
{
    let Newcomer {
        space,
        ticket,
        stream,
        inode,
    } = newcomer;
    let soon = AtomicBool::new(false);
    let guest = Guest {
        rt: server.rt,
        host,
        space,
        ticket,
        inode,
        soon: &soon,
    };
    if let Ok(kept) = Arc::try_clone(&stream) {
        let _ = serve_stream(server, services, &guest, &stream, SocketPort::new(kept));
    }
    drop(stream);
    host.guests.leave(server.rt, ticket);
}

/// Serves a socket. What came through it asked for what was asked, and each of that was done by its
/// own end, from the space of its guest; what the system took of it is what the log says that it
/// was given.
fn serve_stream<'a, C, T, R>(
    server: &Server<'_, C, T, SocketPort, R>,
    services: &Mutex<Services<C, SocketPort>>,
    guest: &Guest<'a, R>,
    stream: &'a UnixStream,
    writer: SocketPort,
) -> (Served<EagerStream<'a, R>>, Option<SocketPort>)
where
    C: Naming + Send,
    T: Ledger + Send,
    R: Threads + Wait + Clock + Eprint + Sync,
    requires { writer.taken ≡ [] }
    ensures { ServesOne C SocketPort guest.now.space (Some [])
        (Some result.0.reader.inlet.came) result.0.asked
        (option_map (λ port. Some port.taken) result.1) }
{
    let ports = Ports {
        space: guest.space,
        reader: EagerStream::new(guest.rt, server.clock, stream, guest.soon),
        writer,
        reads: SocketGate::new(stream, guest),
        writes: SocketGate::new(stream, guest),
        kernel_port: SocketGate::new(stream, guest),
    };
    serve_connection(server, services, ports)
}
