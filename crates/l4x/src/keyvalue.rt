//! A server that keeps words by words.
use crate::messages::{Received, message, message_of, receive_any};
use crate::pace::Pace;
use crate::registration::Registration;
use crate::room::Room;
use crate::trouble::Trouble;
use ipc_base::{PortRead, PortWrite};
use ipc_client::{Answer, Buffers, Client, Message, Timeout};
use std::alloc::Global;
use std::collections::BTreeMap;
use std::rt::Clock;
use std::sync::Wait;

/// The label of a request that puts its second word under its first one.
pub const PUT: u64 = 1;

/// The label of a request for what stands under its word.
pub const GET: u64 = 2;

/// The label of an answer that has a value.
pub const FOUND: u64 = 3;

/// The label of an answer that has none.
pub const NOTHING: u64 = 4;

/// Answers requests for ever. A caller that does not wait for its answer gets none.
pub fn serve<I: PortRead, O: PortWrite, R: Wait + Clock + Eprint>(
    rt: &R,
    alloc: Global,
    client: &mut Client<I, O>,
    registration: Registration,
) -> Result<(), Trouble> {
    let mut registration = registration;
    let mut table = BTreeMap::new(alloc);
    let served = serve_from(rt, alloc, client, &mut registration, &mut table);
    drop(table);
    served
}

/// The same from a table that is kept. Where `l4d` has no room for an answer it waits on.
fn serve_from<I: PortRead, O: PortWrite, R: Wait + Clock + Eprint>(
    rt: &R,
    alloc: Global,
    client: &mut Client<I, O>,
    registration: &mut Registration,
    table: &mut BTreeMap<u64, u64>,
) -> Result<(), Trouble> {
    let mut room = Room::new();
    let mut pace = Pace::new();
    let mut waiting = None;
    for _ in rt.forever() {
        registration.keep(rt, alloc, client)?;
        let is_alone = pace.is_due();
        match next_request(alloc, client, registration, table, &waiting, is_alone) {
            Ok(next) => {
                room.is_there();
                if waiting.is_some() {
                    pace.answered(rt, is_alone);
                }
                waiting = next;
            }
            Err(trouble) => room.wait(rt, trouble)?,
        }
    }
    Ok(())
}

/// Answers the request that waits, if any, and receives the next one, unless the answer goes out
/// alone. None: there is none before the name is registered again.
fn next_request<I: PortRead, O: PortWrite>(
    alloc: Global,
    client: &mut Client<I, O>,
    registration: &Registration,
    table: &mut BTreeMap<u64, u64>,
    waiting: &Option<Received>,
    is_alone: bool,
) -> Result<Option<Received>, Trouble> {
    let next = match waiting {
        Some(request) if is_alone => return answer_alone(alloc, client, table, *request),
        Some(request) => answer_and_wait(alloc, client, registration, table, *request),
        None => receive_any(alloc, client, registration.patience()),
    };
    match message_of(next?)? {
        Ok(request) if !registration.is_answer(request.sender) => Ok(Some(request)),
        _ => Ok(None),
    }
}

/// Answers a request, and receives the next one.
fn answer_and_wait<I: PortRead, O: PortWrite>(
    alloc: Global,
    client: &mut Client<I, O>,
    registration: &Registration,
    table: &mut BTreeMap<u64, u64>,
    request: Received,
) -> Result<Answer, Trouble> {
    let answer = answer(alloc, table, request)?;
    let buffers = Buffers::none(alloc);
    Ok(client.reply_wait(request.sender, answer, registration.patience(), buffers)?)
}

/// Answers a request, and receives nothing.
fn answer_alone<I: PortRead, O: PortWrite>(
    alloc: Global,
    client: &mut Client<I, O>,
    table: &mut BTreeMap<u64, u64>,
    request: Received,
) -> Result<Option<Received>, Trouble> {
    let answer = answer(alloc, table, request)?;
    let _ = message_of(client.send(request.sender, answer, Timeout::zero())?)?;
    Ok(None)
}

/// The answer to a request.
fn answer(
    alloc: Global,
    table: &mut BTreeMap<u64, u64>,
    request: Received,
) -> Result<Message, Trouble> {
    match answered(table, request) {
        Some(value) => message(alloc, FOUND, &[value]),
        None => message(alloc, NOTHING, &[]),
    }
}

/// The value that is answered to a request, if any.
fn answered(table: &mut BTreeMap<u64, u64>, request: Received) -> Option<u64> {
    let [key, value] = request.words;
    match request.label {
        PUT => put(table, key, value),
        GET => table.get(&key).copied(),
        _ => None,
    }
}

/// Puts a value under a key, and answers it.
fn put(table: &mut BTreeMap<u64, u64>, key: u64, value: u64) -> Option<u64> {
    match table.insert(key, value) {
        Ok(_) => Some(value),
        Err(_) => None,
    }
}
