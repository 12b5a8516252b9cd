//! A gateway before the key-value server: passes each request on in the name of who asked, so that
//! the server answers them itself. Where there is no such server it answers that.
use crate::calling::{Search, Server, thread_of};
use crate::messages::{Received, message, message_of, receive_any};
use crate::registration::Registration;
use crate::room::Room;
use crate::trouble::Trouble;
use ipc_base::{PortRead, PortWrite};
use ipc_client::{Client, Message, Timeout};
use ipc_words::ThreadId;
use std::alloc::Global;
use std::rt::Clock;
use std::sync::Wait;

/// The label of the answer to a request that no server took.
pub const NO_SERVER: u64 = 5;

/// How long a server has to take a request, in microseconds: one that is stopped holds up nobody
/// who asks for another one.
const PASS_TIME: u64 = 1_000_000;

/// Passes requests on for ever.
///
/// The message that goes on has the flag p and shows who asked as its VirtualSender. Who asked
/// waits for the gateway alone. When the transfer begins that wait is turned to the server, so the
/// answer does not come through here. Where `l4d` has no room for a request it waits on.
pub fn serve<I: PortRead, O: PortWrite, R: Wait + Clock + Eprint>(
    rt: &R,
    alloc: Global,
    client: &mut Client<I, O>,
    registration: Registration,
) -> Result<(), Trouble> {
    let mut registration = registration;
    let mut room = Room::new();
    let mut waiting = None;
    for _ in rt.forever() {
        registration.keep(rt, alloc, client)?;
        match serve_next(alloc, client, &registration, &waiting) {
            Ok(next) => {
                room.is_there();
                waiting = next;
            }
            Err(trouble) => room.wait(rt, trouble)?,
        }
    }
    Ok(())
}

// Passes the request on that waits, or receives one where none does.
fn serve_next<I: PortRead, O: PortWrite>(
    alloc: Global,
    client: &mut Client<I, O>,
    registration: &Registration,
    waiting: &Option<Received>,
) -> Result<Option<Received>, Trouble> {
    match waiting {
        Some(request) => {
            answer(alloc, client, registration.search(), *request)?;
            Ok(None)
        }
        None => next_request(alloc, client, registration),
    }
}

// Receives a request. None: there is none before the name is registered again.
fn next_request<I: PortRead, O: PortWrite>(
    alloc: Global,
    client: &mut Client<I, O>,
    registration: &Registration,
) -> Result<Option<Received>, Trouble> {
    match message_of(receive_any(alloc, client, registration.patience())?)? {
        Ok(request) if !registration.is_answer(request.sender) => Ok(Some(request)),
        _ => Ok(None),
    }
}

// Passes a request on. Where no server takes it, who asked is told so.
fn answer<I: PortRead, O: PortWrite>(
    alloc: Global,
    client: &mut Client<I, O>,
    search: Search,
    request: Received,
) -> Result<(), Trouble> {
    let asker = request.sender;
    let message = in_name_of_sender(alloc, request)?;
    if pass(alloc, client, search, message)? {
        return Ok(());
    }
    deny(alloc, client, asker)
}

// The message of a request in the name of who asked.
fn in_name_of_sender(alloc: Global, request: Received) -> Result<Message, Trouble> {
    let mut passed = message(alloc, request.label, &request.words)?;
    passed.tag = passed.tag.with_propagated(true);
    passed.sender = request.sender;
    Ok(passed)
}

// Passes a message on to the key-value server. False where nobody takes it.
fn pass<I: PortRead, O: PortWrite>(
    alloc: Global,
    client: &mut Client<I, O>,
    search: Search,
    message: Message,
) -> Result<bool, Trouble> {
    match thread_of(alloc, client, Server::KeyValue, search) {
        Ok(server) => {
            let wait = Timeout::micros(PASS_TIME);
            let sent = message_of(client.send(server, message, wait)?)?;
            Ok(sent.is_ok())
        }
        Err(trouble) => {
            drop(message);
            unless_gone(trouble)
        }
    }
}

// False where the trouble is only that there is no such server, or none that knows its name.
fn unless_gone(trouble: Trouble) -> Result<bool, Trouble> {
    match trouble {
        Trouble::NoThread(..) => Ok(false),
        other if other.passes() => Ok(false),
        other => Err(other),
    }
}

// Tells who asked that no server took the request. Who does not wait for that is not told.
fn deny<I: PortRead, O: PortWrite>(
    alloc: Global,
    client: &mut Client<I, O>,
    asker: ThreadId,
) -> Result<(), Trouble> {
    let denial = message(alloc, NO_SERVER, &[])?;
    let _ = message_of(client.send(asker, denial, Timeout::zero())?)?;
    Ok(())
}
