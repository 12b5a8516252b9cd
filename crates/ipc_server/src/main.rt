//! The program `l4d`: processes call each other over Unix sockets as L4 threads.
#![tactic(auto)]

ghost use Rattle.std.specs.Prelude.{◌≡◌, ◌^◌};
ghost use Rattle.ipc_server.specs.Ending.{EndsServed};

mod accepting;
mod admitting;
mod caller;
mod control;
mod counters;
mod ending;
mod lacking;
mod lag;
mod linked;
mod noted;
mod probe;
mod ready;
mod served;
mod service;
mod services;
mod serving;
mod socket;
mod telling;
mod traced;
mod working;

use ending::{Ending, ended, status_of};
use ipc_core::{Limits, MAX_CALLS, MAX_ENTRIES};
use ipc_host::{
    ErrorLines, Guests, NoWords, ProcessStatus, Readiness, ServerClock, SocketPort, descriptors,
    room, tell_no_text, words_of,
};
use ipc_lock::{BlankLog, Naming, SharedKernel};
use ipc_tracing::{
    Bound, Door, Exit, Host, Listener, Server, SharedTrace, TraceDisk, control, listen, remove,
    remove_door,
};
use l4sh_options::{ServerOptions, server_options};
use linked::{target_of_trace, traced_at};
use services::Services;
use std::alloc::Global;
use std::fs::File;
use std::marker::Brand;
use std::net::{Net, TcpListener, TcpStream};
use std::process::ExitCode;
use std::rt::{Clock, Env, Files};
use std::sync::Wait;
use std::sync::atomic::AtomicU64;
use std::sync::ledger::{Blank, Ledger};
use std::thread::Threads;
use std::{io, thread};
use telling::{asks_help, tell_error, tell_help, tell_nameless_trace};
use traced::serve_as_asked;

/// How many parts the ledgers of the seats have.
const PARTS: u64 = 1 << 63;

/// How many descriptors each path takes.
const PATH_DESCRIPTORS: u64 = 3;

/// How many connections the program's own client makes.
const PROBE_CONNECTIONS: u64 = 2;

/// How many descriptors standard input, output and error take, a trace, and files that are read.
const OTHER_DESCRIPTORS: u64 = 8;

/// How many microseconds a second has.
const SECOND: u64 = 1_000_000;

fn main(rt: HostRuntime) -> io::Result<ExitCode> {
    let alloc = rt.alloc();
    match words_of(&rt, alloc) {
        Ok(words) => obey_words(&rt, alloc, &words),
        Err(NoWords::NotText) => tell_no_text(&rt, "l4d"),
        Err(NoWords::Memory) => ended(&rt, &Exit::NoMemory),
    }
}

/// Does what the words ask for, and answers the status of the program.
fn obey_words<R>(rt: &R, alloc: Global, words: &[String]) -> io::Result<ExitCode>
where
    R: Threads
        + Wait
        + Clock
        + Env
        + Alloc<A = Global>
        + Files<File = File>
        + TraceDisk
        + Net<Listener = TcpListener, Stream = TcpStream>
        + Print
        + Eprint
        + Sync,
{
    if asks_help(words) {
        return tell_help(rt, alloc);
    }
    match server_options(alloc, words) {
        Ok(options) => match target_of_trace(rt, &options) {
            Some(target) => obey(rt, alloc, &traced_at(&options, target.as_path().as_str())),
            None => obey(rt, alloc, &options),
        },
        Err(error) => tell_error(rt, alloc, &error),
    }
}

/// Serves as the options say, and answers the status of the program. The ledgers of the seats and
/// the log begin as blanks.
fn obey<R>(rt: &R, alloc: Global, options: &ServerOptions<'_>) -> io::Result<ExitCode>
where
    R: Threads
        + Wait
        + Clock
        + Env
        + Alloc<A = Global>
        + Files<File = File>
        + TraceDisk
        + Net<Listener = TcpListener, Stream = TcpStream>
        + Print
        + Eprint
        + Sync,
{
    if options.trace == Some("") {
        return tell_nameless_trace(rt);
    }
    let readiness = Readiness::of(rt, options.ready_fd);
    if let Some(fd) = readiness.fault() {
        return ended(rt, &Exit::NoReadyDescriptor(fd));
    }
    let Ok(log) = BlankLog::new(alloc) else {
        return ended(rt, &Exit::NoMemory);
    };
    let (calls, takes) = (Blank::new(PARTS), Blank::new(PARTS));
    begin::<Brand, Brand, _>(rt, alloc, options, readiness, calls, takes, log)
}

/// Serves over a new kernel, and answers the status of the program by how that ended.
fn begin<C: Naming + Send, T: Ledger + Send, R>(
    rt: &R,
    alloc: Global,
    options: &ServerOptions<'_>,
    readiness: Readiness,
    calls: Blank,
    takes: Blank,
    log: BlankLog,
) -> io::Result<ExitCode>
where
    R: Threads
        + Wait
        + Clock
        + Files<File = File>
        + TraceDisk
        + Net<Listener = TcpListener, Stream = TcpStream>
        + Print
        + Eprint
        + Sync,
    requires calls_name { calls.name ≡ C.name }
    requires calls_parts { (calls.parts ≡ C.parts) × (calls.parts ≡ 2 ^ 63) }
    requires takes_name { takes.name ≡ T.name }
    requires takes_parts { (takes.parts ≡ T.parts) × (takes.parts ≡ 2 ^ 63) }
    requires log_tables { log ≡ C.tables }
{
    let ending = start::<C, T, R>(rt, alloc, options, readiness, calls, takes, log);
    status_of(rt, &ending)
}

/// Makes the kernel, and serves over it. Where it ends well all connections that it had were served
/// in one log: each got what the log says that it was given, and the log says of each what came
/// through its socket, and of no other.
fn start<C: Naming + Send, T: Ledger + Send, R>(
    rt: &R,
    alloc: Global,
    options: &ServerOptions<'_>,
    readiness: Readiness,
    calls: Blank,
    takes: Blank,
    log: BlankLog,
) -> Ending<C>
where
    R: Threads
        + Wait
        + Clock
        + Files<File = File>
        + TraceDisk
        + Net<Listener = TcpListener, Stream = TcpStream>
        + Print
        + Eprint
        + Sync,
    requires calls_name { calls.name ≡ C.name }
    requires calls_parts { (calls.parts ≡ C.parts) × (calls.parts ≡ 2 ^ 63) }
    requires takes_name { takes.name ≡ T.name }
    requires takes_parts { (takes.parts ≡ T.parts) × (takes.parts ≡ 2 ^ 63) }
    requires log_tables { log ≡ C.tables }
    ensures { EndsServed result }
{
    let limits = Limits {
        entries: MAX_ENTRIES,
        calls: MAX_CALLS,
    };
    match SharedKernel::<C, T, SocketPort>::new(alloc, limits, calls, takes, log) {
        Ok((shared, roll)) => {
            let services = Services::new(roll);
            start_over(rt, alloc, options, readiness, &shared, services).told()
        }
        Err(_) => Ending::Failed(Exit::NoMemory),
    }
}

/// Starts the clock, and serves over a kernel.
fn start_over<C: Naming + Send, T: Ledger + Send, R>(
    rt: &R,
    alloc: Global,
    options: &ServerOptions<'_>,
    readiness: Readiness,
    shared: &SharedKernel<C, T, SocketPort>,
    services: Services<C, SocketPort>,
) -> Ending<C>
where
    R: Threads
        + Wait
        + Clock
        + Files<File = File>
        + TraceDisk
        + Net<Listener = TcpListener, Stream = TcpStream>
        + Print
        + Eprint
        + Sync,
{
    match ServerClock::start(rt) {
        Ok(clock) => {
            let server = Server::new(rt, alloc, shared, clock);
            listen_and_serve(&server, options, readiness, services)
        }
        Err(error) => Ending::Failed(Exit::of_clock(error)),
    }
}

/// Listens, serves, and removes the paths again.
fn listen_and_serve<C: Naming + Send, T: Ledger + Send, R>(
    server: &Server<'_, C, T, SocketPort, R>,
    options: &ServerOptions<'_>,
    readiness: Readiness,
    services: Services<C, SocketPort>,
) -> Ending<C>
where
    R: Threads
        + Wait
        + Clock
        + Files<File = File>
        + TraceDisk
        + Net<Listener = TcpListener, Stream = TcpStream>
        + Print
        + Eprint
        + Sync,
{
    let most = most_connections(server.rt, server.alloc, options);
    if options.probe && most.min(u64::from(options.connections)) < PROBE_CONNECTIONS {
        return Ending::Failed(Exit::NoRoomForProbe);
    }
    match bind_paths(server, options) {
        Ok((listeners, door)) => {
            let host = host_of(server, options, most, listeners, door, readiness);
            serve_host(server, &host, options, services)
        }
        Err(exit) => Ending::Failed(exit),
    }
}

/// Binds the paths of the spaces, and the one for those who ask. Where one cannot be bound the
/// others are removed.
fn bind_paths<
    C: Naming,
    T: Ledger,
    R: Files<File = File> + Net<Listener = TcpListener, Stream = TcpStream> + Clock,
>(
    server: &Server<'_, C, T, SocketPort, R>,
    options: &ServerOptions<'_>,
) -> Result<(Vec<Listener>, Option<Door>), Exit> {
    let listeners = listen(server.rt, server.alloc, options)?;
    match control(server.rt, server.alloc, options) {
        Ok(door) => Ok((listeners, door)),
        Err(exit) => {
            remove(server.rt, listeners.as_slice());
            Err(exit)
        }
    }
}

/// What the workers share beside the kernel, with so many connections at one time.
fn host_of<C: Naming, T: Ledger, R: Threads + Files<File = File>>(
    server: &Server<'_, C, T, SocketPort, R>,
    options: &ServerOptions<'_>,
    most: u64,
    listeners: Vec<Listener>,
    control: Option<Door>,
    readiness: Readiness,
) -> Host {
    Host {
        guests: Guests::new(server.alloc, most, within(options), server.clock),
        bound: Bound::of(most, options.live),
        readiness,
        listeners,
        control,
        askers: AtomicU64::new(0),
        connections: (!options.keep_open).then_some(options.connections),
        is_logged: options.log,
        lines: ErrorLines::new(server.alloc),
        is_eager: has_several_processors(server.rt),
        trace: SharedTrace::new(server.alloc, options),
        signals: ProcessStatus::open(server.rt),
        memory: ProcessStatus::open(server.rt),
    }
}

fn has_several_processors<R: Threads>(rt: &R) -> bool {
    match thread::available_parallelism(rt) {
        Ok(count) => count.get() > 1,
        Err(_) => false,
    }
}

/// Serves the paths that are bound, removes them, and says that it closed where it ended well.
fn serve_host<C: Naming + Send, T: Ledger + Send, R>(
    server: &Server<'_, C, T, SocketPort, R>,
    host: &Host,
    options: &ServerOptions<'_>,
    services: Services<C, SocketPort>,
) -> Ending<C>
where
    R: Threads
        + Wait
        + Clock
        + Files<File = File>
        + TraceDisk
        + Net<Listener = TcpListener, Stream = TcpStream>
        + Print
        + Eprint
        + Sync,
{
    let ending = serve_as_asked(server, host, options, services);
    remove(server.rt, host.listeners.as_slice());
    if let Some(door) = &host.control {
        remove_door(server.rt, door);
    }
    closed(server.rt, ending)
}

/// Says that the server closed, where it ended well, and answers how it ended then.
fn closed<C: Naming, R: Print>(rt: &R, ending: Ending<C>) -> Ending<C> {
    if let Ending::Failed(_) = &ending {
        return ending;
    }
    match println!(rt; "closed") {
        Ok(()) => ending,
        Err(error) => Ending::Failed(Exit::of_output(error)),
    }
}

/// How many connections there may be at one time: as many as were asked for and the limit of
/// descriptors leaves. Each path has its socket twice, and one connection that waits for room.
fn most_connections<R: Files>(rt: &R, alloc: Global, options: &ServerOptions<'_>) -> u64 {
    let used = u64::from(options.spaces) * PATH_DESCRIPTORS + OTHER_DESCRIPTORS;
    room(u64::from(options.live), descriptors(rt, alloc), used)
}

/// How long a connection has for its HELLO, in microseconds.
fn within(options: &ServerOptions<'_>) -> u64 {
    u64::from(options.hello_within) * SECOND
}
