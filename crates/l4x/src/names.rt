//! A name server: who has a name. docs/NAMES.md has its words.
mod answering;
mod looking_up;
mod registering;

use crate::messages::{name_buffer, next_of};
use crate::naming::{NameError, Reply, Request};
use crate::pace::Pace;
use crate::room::Room;
use crate::table::Table;
use crate::trouble::Trouble;
use answering::answer;
use ipc_base::{PortRead, PortWrite};
use ipc_client::{Client, Received, Timeout};
use ipc_words::ThreadId;
use looking_up::{list, look_up};
use registering::register;
use std::alloc::Global;
use std::rt::Clock;
use std::sync::Wait;

/// An answer, and the next request where one was taken meanwhile.
#[derive(Drop)]
pub struct Served {
    /// The answer.
    pub reply: Reply,
    /// The next request.
    pub next: Option<Received>,
}

/// What is in the server's hands.
#[derive(Drop)]
enum Work {
    /// Nothing: the next request is to be received.
    Nothing,
    /// A request that is to be served.
    Request(Received),
    /// An answer that is to be sent to this thread.
    Answer(ThreadId, Served),
}

/// Work that could not be done, and why.
#[derive(Drop)]
struct Undone {
    work: Work,
    trouble: Trouble,
}

/// Answers requests for ever. Who does not wait for its answer gets none.
pub fn serve<I: PortRead, O: PortWrite, R: Wait + Clock + Eprint>(
    rt: &R,
    alloc: Global,
    client: &mut Client<I, O>,
) -> Result<(), Trouble> {
    let mut table = Table::new(alloc);
    let served = serve_from(rt, alloc, client, &mut table);
    drop(table);
    served
}

// The same from a table that is kept. Work for which `l4d` has no room is done again.
fn serve_from<I: PortRead, O: PortWrite, R: Wait + Clock + Eprint>(
    rt: &R,
    alloc: Global,
    client: &mut Client<I, O>,
    table: &mut Table,
) -> Result<(), Trouble> {
    let mut room = Room::new();
    let mut pace = Pace::new();
    let mut work = Work::Nothing;
    for _ in rt.forever() {
        let is_answer = matches!(&work, Work::Answer(..));
        let is_alone = pace.is_due();
        match turn(alloc, client, table, work, is_alone) {
            Ok(next) => {
                room.is_there();
                if is_answer {
                    pace.answered(rt, is_alone);
                }
                work = next;
            }
            Err(undone) => {
                let Undone {
                    work: left,
                    trouble,
                } = undone;
                work = left;
                room.wait(rt, trouble)?;
            }
        }
    }
    drop(work);
    Ok(())
}

// Does the work that is there, and has the next one, unless an answer goes out alone.
fn turn<I: PortRead, O: PortWrite>(
    alloc: Global,
    client: &mut Client<I, O>,
    table: &mut Table,
    work: Work,
    is_alone: bool,
) -> Result<Work, Undone> {
    match work {
        Work::Nothing => receive(alloc, client),
        Work::Request(request) => serve_request(alloc, client, table, request),
        Work::Answer(sender, served) => send_answer(alloc, client, sender, served, is_alone),
    }
}

// Receives a request.
fn receive<I: PortRead, O: PortWrite>(
    alloc: Global,
    client: &mut Client<I, O>,
) -> Result<Work, Undone> {
    match receive_any(alloc, client) {
        Ok(came) => Ok(work_of(came)),
        Err(trouble) => Err(Undone {
            work: Work::Nothing,
            trouble,
        }),
    }
}

// The next request that comes. None where a call of the server failed.
fn receive_any<I: PortRead, O: PortWrite>(
    alloc: Global,
    client: &mut Client<I, O>,
) -> Result<Option<Received>, Trouble> {
    let buffers = name_buffer(alloc)?;
    next_of(client.receive(ThreadId::ANYTHREAD, Timeout::never(), buffers)?)
}

// What is to be done with a request that came.
fn work_of(came: Option<Received>) -> Work {
    match came {
        Some(request) => Work::Request(request),
        None => Work::Nothing,
    }
}

// Finds the answer to a request.
fn serve_request<I: PortRead, O: PortWrite>(
    alloc: Global,
    client: &mut Client<I, O>,
    table: &mut Table,
    request: Received,
) -> Result<Work, Undone> {
    match answer_to(alloc, client, table, &request) {
        Ok(served) => {
            let sender = request.sender();
            drop(request);
            Ok(Work::Answer(sender, served))
        }
        Err(trouble) => Err(Undone {
            work: Work::Request(request),
            trouble,
        }),
    }
}

// Sends an answer. The next request is that which was taken meanwhile, or the next that comes; none
// where the answer goes out alone.
fn send_answer<I: PortRead, O: PortWrite>(
    alloc: Global,
    client: &mut Client<I, O>,
    sender: ThreadId,
    served: Served,
    is_alone: bool,
) -> Result<Work, Undone> {
    match answer(alloc, client, sender, &served, is_alone) {
        Ok(came) => {
            let Served { reply, next } = served;
            drop(reply);
            Ok(work_of(next.or(came)))
        }
        Err(trouble) => Err(Undone {
            work: Work::Answer(sender, served),
            trouble,
        }),
    }
}

// What is answered to a request.
fn answer_to<I: PortRead, O: PortWrite>(
    alloc: Global,
    client: &mut Client<I, O>,
    table: &mut Table,
    message: &Received,
) -> Result<Served, Trouble> {
    match Request::of(alloc, message) {
        Ok(request) => serve_one(alloc, client, table, request, message.sender()),
        Err(error) => Ok(refused(error, ThreadId::NILTHREAD, None)),
    }
}

// What is answered to a request of a sender.
fn serve_one<I: PortRead, O: PortWrite>(
    alloc: Global,
    client: &mut Client<I, O>,
    table: &mut Table,
    request: Request,
    sender: ThreadId,
) -> Result<Served, Trouble> {
    match request {
        Request::Register(name) => register(alloc, client, table, name, sender),
        Request::LookUp(name) => look_up(alloc, client, table, name, sender),
        Request::List(after) => list(alloc, client, table, after, sender),
    }
}

// An error.
fn refused(error: NameError, thread: ThreadId, next: Option<Received>) -> Served {
    Served {
        reply: Reply::error(error, thread),
        next,
    }
}

// A thread, or nilthread.
fn told(thread: ThreadId, next: Option<Received>) -> Served {
    Served {
        reply: Reply::thread(thread),
        next,
    }
}
