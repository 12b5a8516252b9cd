//! Those who ask what the server does: they connect to the path `control`, say a word, and are
//! answered with a text.
use crate::counters::{CounterLines, counters_now};
use crate::lacking::{CameBy, tell_lack};
use crate::serving::start_worker_on;
use ipc_host::SocketPort;
use ipc_lock::Naming;
use ipc_tracing::{Door, Host, NO_MEMORY, Server, answer_with_part, began_text, follow, say};
use l4sh_state::{State, drops_of, tell_state};
use std::alloc::AllocError;
use std::io::Read;
use std::os::unix::net::UnixStream;
use std::rt::Clock;
use std::sync::Wait;
use std::sync::atomic::Ordering;
use std::sync::ledger::Ledger;
use std::thread::{Scope, Threads};
use std::time::Duration;
use std::{io, thread};

/// How many may ask at one time. Who comes beside them is closed at once.
const MOST_ASKERS: u64 = 8;

/// How long each read and each write of an answer may wait, in milliseconds.
const PATIENCE: u64 = 1_000;

/// The most bytes of a word, its newline among them.
const WORD_BYTES: usize = 64;

/// How many reads a word may come in.
const WORD_READS: usize = 64;

/// How much stack a worker has that may tell what each thread does, in bytes.
const STACK: usize = 4_194_304;

/// What is said to a word that asks for nothing.
const UNKNOWN: &str =
    "unknown: one of state, counters, trace, trace follow, rotate, began, threads\n";

/// What is said where the trace is to go on in a further file.
const ROTATED: &str = "the next entries end the file\n";

/// What is said where the trace goes to a pipe.
const PIPED: &str = "the trace is a pipe, which is one file to its end\n";

/// What is said where there is no trace.
const UNTRACED: &str = "no trace: start l4d with --trace FILE\n";

/// What is said to who would follow where no worker can be started for him.
const NO_WORKER: &str = "no worker is left for one who follows: ask again\n";

/// Whose time an answer takes.
#[derive(Clone, Copy, PartialEq, Eq)]
enum Worker {
    /// That of a worker which was started for it.
    Own,
    /// That of the worker which lets in who asks: the next ones wait meanwhile.
    Shared,
}

/// Starts the worker that answers those who ask, until the service ends. False where it cannot be
/// started.
pub(crate) fn start_answering<'s, E, C: Naming + Send, T: Ledger + Send, R>(
    scope: &Scope<'s, E>,
    server: &'s Server<'_, C, T, SocketPort, R>,
    host: &'s Host,
    door: &'s Door,
) -> bool
where
    R: Threads + Wait + Clock + Eprint + Sync,
{
    start_worker_on(scope, STACK, move || answer_askers(server, host, door)).is_ok()
}

/// Answers those who ask, until the service ends.
fn answer_askers<C: Naming + Send, T: Ledger + Send, R>(
    server: &Server<'_, C, T, SocketPort, R>,
    host: &Host,
    door: &Door,
)
where
    R: Threads + Wait + Clock + Eprint + Sync,
{
    let rt = server.rt;
    thread::scope(thread::scope_env(), rt, |scope| {
        for _ in rt.forever() {
            if host.guests.is_stopping(rt) {
                return;
            }
            match door.accept() {
                Ok(stream) => {
                    if let Some(stream) = admit(host, stream) {
                        let shared = stream.try_clone();
                        let started = start_worker_on(
                            scope,
                            STACK,
                            move || serve_asker(server, host, stream, Worker::Own),
                        );
                        if let Err(error) = started {
                            answer_shared(server, host, shared, error);
                        }
                    }
                }
                Err(_) => rest(server, host),
            }
        }
    });
}

/// Answers one for whom no worker can be started, over another descriptor of his connection.
fn answer_shared<C: Naming, T: Ledger, R: Wait + Clock + Eprint>(
    server: &Server<'_, C, T, SocketPort, R>,
    host: &Host,
    shared: io::Result<UnixStream>,
    error: io::Error,
) {
    match shared {
        Ok(stream) => serve_asker(server, host, stream, Worker::Shared),
        Err(_) => {
            leave(host);
            tell_lack(server.rt, host, CameBy::Control, error);
        }
    }
}

/// Lets one in who asks, where there is room for him.
fn admit(host: &Host, stream: UnixStream) -> Option<UnixStream> {
    if host.askers.load(Ordering::SeqCst) >= MOST_ASKERS {
        return None;
    }
    let _ = host.askers.fetch_add(1, Ordering::SeqCst);
    Some(stream)
}

/// Waits a little where nobody could be accepted.
fn rest<C: Naming, T: Ledger, R: Wait + Clock>(
    server: &Server<'_, C, T, SocketPort, R>,
    host: &Host,
) {
    host.guests.wait_turn(server.rt);
}

/// One who asked has gone.
fn leave(host: &Host) {
    let _ = host.askers.fetch_sub(1, Ordering::SeqCst);
}

/// Hears the word of one who asks, and answers it. Who is slow is left: nothing waits for him.
fn serve_asker<C: Naming, T: Ledger, R: Wait + Clock>(
    server: &Server<'_, C, T, SocketPort, R>,
    host: &Host,
    stream: UnixStream,
    worker: Worker,
) {
    let _ = answer_over(server, host, &stream, worker);
    drop(stream);
    leave(host);
}

/// The same over his connection.
///
/// # Errors
///
/// The system's; he was too slow.
fn answer_over<C: Naming, T: Ledger, R: Wait + Clock>(
    server: &Server<'_, C, T, SocketPort, R>,
    host: &Host,
    stream: &UnixStream,
    worker: Worker,
) -> io::Result<()> {
    let patience = Duration::from_millis(PATIENCE);
    stream.set_read_timeout(Some(patience))?;
    stream.set_write_timeout(Some(patience))?;
    match hear(stream)? {
        Asked::Trace => answer_with_part(server, &host.trace, stream),
        Asked::Follow if worker == Worker::Shared => say(stream, NO_WORKER),
        Asked::Follow => follow(server, &host.guests, &host.trace, stream),
        asked => match answer_to(server, host, asked) {
            Ok(Some(answer)) => say(stream, answer.as_str()),
            Ok(None) => say(stream, UNKNOWN),
            Err(_) => say(stream, NO_MEMORY),
        },
    }
}

/// What may be asked.
#[derive(Clone, Copy, PartialEq, Eq)]
enum Asked {
    /// What each thread does.
    State,
    /// What the server counts.
    Counters,
    /// The part of a trace that begins now.
    Trace,
    /// The same, and then each further entry.
    Follow,
    /// That the trace goes on in a further file.
    Rotate,
    /// When moment 0 was.
    Began,
    /// Which socket each thread has.
    Threads,
    /// Nothing that is known.
    Unknown,
}

/// The word that comes, up to a newline or the end.
///
/// # Errors
///
/// The system's; it was too slow.
fn hear(stream: &UnixStream) -> io::Result<Asked> {
    let mut bytes = [0u8; WORD_BYTES];
    let mut count = 0usize;
    let mut reader = stream;
    for _ in 0..WORD_READS {
        if count >= WORD_BYTES {
            break;
        }
        let read = reader.read(&mut bytes[count..])?;
        count = count.saturating_add(read).min(WORD_BYTES);
        if read == 0 || bytes[..count].contains(&b'\n') {
            break;
        }
    }
    Ok(asked_by(&bytes[..count.min(WORD_BYTES)]))
}

/// What a word asks for.
fn asked_by(bytes: &[u8]) -> Asked {
    match bytes {
        b"state" | b"state\n" => Asked::State,
        b"counters" | b"counters\n" => Asked::Counters,
        b"trace" | b"trace\n" => Asked::Trace,
        b"trace follow" | b"trace follow\n" => Asked::Follow,
        b"rotate" | b"rotate\n" => Asked::Rotate,
        b"began" | b"began\n" => Asked::Began,
        b"threads" | b"threads\n" => Asked::Threads,
        _ => Asked::Unknown,
    }
}

/// The answer; None where nothing was asked that is known.
fn answer_to<C: Naming, T: Ledger, R: Wait + Clock>(
    server: &Server<'_, C, T, SocketPort, R>,
    host: &Host,
    asked: Asked,
) -> Result<Option<String>, AllocError> {
    match asked {
        Asked::State => Ok(Some(state_text(server)?)),
        Asked::Counters => {
            let counters = counters_now(server, host);
            Ok(Some(CounterLines(counters).to_string(server.alloc)?))
        }
        Asked::Rotate => Ok(Some(rotated(server, host)?)),
        Asked::Began => Ok(Some(began_text(server)?)),
        Asked::Threads => Ok(Some(threads_text(server, host)?)),
        Asked::Trace | Asked::Follow | Asked::Unknown => Ok(None),
    }
}

/// Has the trace go on in a further file, and answers what is said: where it has stopped, why.
fn rotated<C: Naming, T: Ledger, R: Wait>(
    server: &Server<'_, C, T, SocketPort, R>,
    host: &Host,
) -> Result<String, AllocError> {
    if let Some(line) = host.trace.stop.line(server.rt, server.alloc)? {
        return Ok(line);
    }
    let said = if host.trace.meter.is_pipe() {
        PIPED
    } else if host.trace.end_file() {
        ROTATED
    } else {
        UNTRACED
    };
    String::from_str(server.alloc, said)
}

/// How many threads are there, and behind it a line for each with its socket.
fn threads_text<C: Naming, T: Ledger, R: Wait>(
    server: &Server<'_, C, T, SocketPort, R>,
    host: &Host,
) -> Result<String, AllocError> {
    let sockets = host.guests.sockets(server.rt)?;
    let mut text = String::new(server.alloc);
    write!(text, "threads {}\n", sockets.len())?;
    for socket in &sockets {
        write!(text, "{socket}\n")?;
    }
    Ok(text)
}

/// What each thread does at this moment, in the words of `l4sh state`.
fn state_text<C: Naming, T: Ledger, R: Wait + Clock>(
    server: &Server<'_, C, T, SocketPort, R>,
) -> Result<String, AllocError> {
    let State { threads, .. } = server.shared.state(server.rt);
    let state = State {
        threads,
        moment: server.now(),
    };
    let drops = drops_of(server.alloc, &[])?;
    tell_state(server.alloc, &state, &drops)
}
