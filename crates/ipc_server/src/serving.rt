//! The two workers of a connection.
ghost use Rattle.std.specs.Prelude.{◌≡◌, [], None, false, map, option_map, true};
ghost use Rattle.ipc_lock.specs.Above.{EndsWorkSome};
ghost use Rattle.ipc_connection.specs.Pens.{BeginsEmpty};
ghost use Rattle.ipc_server.specs.Doing.{IsAtHome, IsNew, ReadsBy, ServesOne};
ghost use Rattle.ipc_server.specs.Writing.{EndsWriting, TakesTurn, WritesAndLays};
ghost use Rattle.ipc_session.specs.Keeping.{call_of};
ghost use Rattle.ipc_session.specs.Sessions.{AsksFor};

use crate::caller::Caller;
use crate::noted::NotedEnd;
use crate::served::Served;
use crate::services::{Services, note_of};
use ipc_base::{Past, PortRead};
use ipc_connection::{Patience, PenPort};
use ipc_host::Notice;
use ipc_lock::{Loaded, Naming, PostEnd, TakeEnd};
use ipc_session::{Gate, read_loop};
use ipc_tracing::Server;
use ipc_words::ThreadId;
use std::io::{self, ErrorKind};
use std::rt::Clock;
use std::sync::ledger::Ledger;
use std::sync::{Mutex, Wait};
use std::thread::{self, Scope, Threads};

/// How much stack a worker has, in bytes.
const STACK: usize = 262_144;

/// The link that a connection's ports stand on: a worker that ends shuts it down, and it sees what
/// becomes of the connection.
pub trait Link {
    /// Nothing more is read.
    fn stop_reading(&self);

    /// Nothing more is read or written.
    fn shut_down(&self);

    /// The connection is a thread from here on.
    fn welcomes(&self, thread: ThreadId);

    /// Its call was over at once, and it was told so.
    fn sees_outcome(&self);

    /// It is about to ask for a command whose strings have so many bytes: it waits where the trace
    /// is too far behind.
    fn asks(&self, bytes: u64);

    /// It is told this, as the thread that it is, if any.
    fn tells(&self, notice: Notice, thread: Option<ThreadId>);

    /// It is closed, since this failed that serving it takes.
    fn lacks(&self, error: io::Error);
}

/// The ports of a connection to a space, and the link that they stand on: as the gate of the loop
/// that reads, for the worker that writes, and for the kernel port.
#[derive(Drop)]
pub struct Ports<P: PenPort, I: PortRead, G: Gate + Link> {
    /// The space, 1 to `MAX_SPACE`.
    pub space: u64,
    /// What the client sends.
    pub reader: I,
    /// What the client is told.
    pub writer: P,
    /// The gate of the loop that reads.
    pub reads: G,
    /// The link, for the worker that writes.
    pub writes: G,
    /// The link, for the kernel port.
    pub kernel_port: G,
}

/// Starts a worker that does this, and that its scope joins.
pub(crate) fn start_worker<'s, E, F: FnOnce() + Send + Drop + 's>(
    scope: &Scope<'s, E>,
    work: F,
) -> io::Result<()>
    requires { F.pre work }
{
    start_worker_on(scope, STACK, work)
}

/// The same with so many bytes of stack.
pub(crate) fn start_worker_on<'s, E, F: FnOnce() + Send + Drop + 's>(
    scope: &Scope<'s, E>,
    stack: usize,
    work: F,
) -> io::Result<()>
    requires { F.pre work }
{
    let builder = thread::Builder::new().stack_size(stack);
    let handle = builder.spawn_scoped(scope, work)?;
    drop(handle);
    Ok(())
}

/// What the worker that reads has of a connection's ports.
#[derive(Drop)]
struct Reading<I: PortRead, G: Gate + Link> {
    reader: I,
    reads: G,
    kernel_port: G,
}

/// Serves one connection to its end: reads in this thread, and in one that it starts writes what no
/// other thread could. Where that cannot be started, or there is no memory for a box, that is told,
/// and the link is shut down. What came asked for what was asked, and each of that was done by the
/// connection's own end, of which the one log of the kernel says nothing else. The port to which
/// was written comes back where the connection had a box: what went out is what the log says that
/// it was given. It is then among those that were served.
pub fn serve_connection<C, T, P, R, I, G>(
    server: &Server<'_, C, T, P, R>,
    services: &Mutex<Services<C, P>>,
    ports: Ports<P, I, G>,
) -> (Served<I>, Option<P>)
where
    C: Naming + Send,
    T: Ledger + Send,
    P: PenPort + Drop + Send,
    R: Threads + Wait + Clock + Sync,
    I: PortRead + Drop,
    G: Gate + Link + Drop + Send,
    requires { BeginsEmpty (P.written ports.writer) }
    ensures { ServesOne C P ports.space (I.came ports.reader) (I.came result.0.reader)
        result.0.asked (option_map (λ port. P.written port) result.1) }
{
    let Ports {
        space,
        reader,
        writer,
        reads,
        writes,
        kernel_port,
    } = ports;
    let note = note_of(&reader);
    let reading = Reading {
        reader,
        reads,
        kernel_port,
    };
    match server.shared.connect(server.rt, writer, space) {
        Ok((posts, takes)) => {
            let (posts, served) = serve_both_ways(server, posts, takes, reading, writes);
            let port = services
                .lock(server.rt)
                .check_in(server, &note, posts, &served);
            (served, port)
        }
        Err(_) => {
            reading.reads.lacks(io::Error::from(ErrorKind::OutOfMemory));
            (turn_away(reading), None)
        }
    }
}

/// A connection that is not served.
fn turn_away<I: PortRead + Drop, G: Gate + Link + Drop>(reading: Reading<I, G>) -> Served<I>
    ensures came { I.came result.reader ≡ I.came reading.reader }
    ensures asked { result.asked ≡ [] }
{
    reading.reads.shut_down();
    let Reading { reader, .. } = reading;
    Served {
        reader,
        asked: Past::new(),
    }
}

/// Serves a connection that has a box, by both workers, and answers its end, which had no seat.
fn serve_both_ways<C, T, P, R, I, G>(
    server: &Server<'_, C, T, P, R>,
    posts: PostEnd<C>,
    takes: TakeEnd,
    reading: Reading<I, G>,
    writes: G,
) -> (PostEnd<C>, Served<I>)
where
    C: Naming + Send,
    T: Ledger + Send,
    P: PenPort + Drop + Send,
    R: Threads + Wait + Clock + Sync,
    I: PortRead + Drop,
    G: Gate + Link + Drop + Send,
    requires { IsNew P posts }
    ensures { ReadsBy P (I.came reading.reader) (I.came result.1.reader) posts result.0
        result.1.asked }
{
    thread::scope(
        thread::scope_env(),
        server.rt,
        |scope|
            requires { IsNew P posts }
            ensures { ReadsBy P (I.came reading.reader) (I.came result.1.reader) posts result.0
                result.1.asked }
        {
            let started = start_worker(scope, move || write_to_the_end(server, takes, writes));
            if let Err(error) = &started {
                reading.reads.lacks(*error);
            }
            read_if(started.is_ok(), server, posts, reading)
        },
    )
}

/// Reads what the client sends where its writer has started; else the connection is turned away.
fn read_if<C, T, P, R, I, G>(
    is_started: bool,
    server: &Server<'_, C, T, P, R>,
    posts: PostEnd<C>,
    reading: Reading<I, G>,
) -> (PostEnd<C>, Served<I>)
where
    C: Naming,
    T: Ledger,
    P: PenPort + Drop,
    R: Wait + Clock,
    I: PortRead + Drop,
    G: Gate + Link + Drop,
    requires { IsNew P posts }
    ensures { ReadsBy P (I.came reading.reader) (I.came result.1.reader) posts result.0
        result.1.asked }
{
    if is_started {
        read_to_the_end(server, posts, reading)
    } else {
        (posts, turn_away(reading))
    }
}

/// Reads what the client sends, and then stops reading. Answers the end of its box.
fn read_to_the_end<C, T, P, R, I, G>(
    server: &Server<'_, C, T, P, R>,
    posts: PostEnd<C>,
    reading: Reading<I, G>,
) -> (PostEnd<C>, Served<I>)
where
    C: Naming,
    T: Ledger,
    P: PenPort + Drop,
    R: Wait + Clock,
    I: PortRead + Drop,
    G: Gate + Link + Drop,
    requires { IsNew P posts }
    ensures { ReadsBy P (I.came reading.reader) (I.came result.1.reader) posts result.0
        result.1.asked }
{
    let Reading {
        mut reader,
        mut reads,
        kernel_port,
    } = reading;
    let mut kernel_port = Caller::new(server, posts, kernel_port);
    read_with(server, &mut reader, &mut kernel_port, &mut reads);
    drop(reads);
    let NotedEnd { end, deeds } = kernel_port.into_end();
    (
        end,
        Served {
            reader,
            asked: deeds,
        },
    )
}

/// The same by ports that somebody else has.
fn read_with<C, T, P, R, I, G>(
    server: &Server<'_, C, T, P, R>,
    reader: &mut I,
    kernel_port: &mut Caller<'_, C, T, P, R, G>,
    reads: &mut G,
)
where
    C: Naming,
    T: Ledger,
    P: PenPort + Drop,
    R: Wait + Clock,
    I: PortRead,
    G: Gate + Link,
    requires { kernel_port.old.deeds ≡ [] }
    ensures asks { AsksFor (I.came reader.old) (I.came reader.new)
        (map call_of kernel_port.new.deeds) }
    ensures home { IsAtHome kernel_port.old.end kernel_port.new.end }
{
    let mut blocks = server.blocks();
    let _ = read_loop(server.alloc, reader, kernel_port, reads, &mut blocks);
    drop(blocks);
    reads.stop_reading();
}

/// Writes what no other thread could write at once, up to the end, and then shuts the link down.
fn write_to_the_end<C, T, P, R, G>(server: &Server<'_, C, T, P, R>, takes: TakeEnd, link: G)
where
    C: Naming,
    T: Ledger,
    P: PenPort + Drop,
    R: Wait + Clock,
    G: Link + Drop,
    ensures { EndsWriting C T P takes.place takes.number }
{
    write_pens(server, &takes);
    server.shared.leave(server.rt, server.now(), &takes);
    link.shut_down();
    drop(link);
}

/// Writes with each pen that comes out for a connection's writer, until nothing more is written.
fn write_pens<C, T, P, R>(server: &Server<'_, C, T, P, R>, takes: &TakeEnd)
where
    C: Naming,
    T: Ledger,
    P: PenPort + Drop,
    R: Wait + Clock,
    ensures { EndsWorkSome C T P takes.now.place takes.now.number }
{
    for _ in server.rt.forever() {
        if !write_next(server, takes) {
            return;
        }
    }
}

/// Waits for the pen of a connection, and writes with it. False once nothing more is written.
fn write_next<C, T, P, R>(server: &Server<'_, C, T, P, R>, takes: &TakeEnd) -> bool
where
    C: Naming,
    T: Ledger,
    P: PenPort + Drop,
    R: Wait + Clock,
    ensures turn { result ≡ true → TakesTurn C P takes.now.place takes.now.number }
    ensures over { result ≡ false → EndsWorkSome C T P takes.now.place takes.now.number }
{
    match server.shared.wait_pen(server.rt, takes) {
        Some(pen) => {
            write_with(server, pen);
            true
        }
        None => false,
    }
}

/// Writes with a pen, with patience, and gives it back.
fn write_with<C, T, P, R>(server: &Server<'_, C, T, P, R>, pen: Loaded<C, P>)
where
    C: Naming,
    T: Ledger,
    P: PenPort + Drop,
    R: Wait + Clock,
    ensures { WritesAndLays C P pen }
{
    let mut pen = pen;
    let _ = pen.write(Patience::Waits);
    server.shared.give_back(server.rt, pen);
}
