//! A name is looked up, and names are listed.
use super::{Served, refused, told};
use crate::naming::{NameError, Reply};
use crate::standing::{Standing, standing_for};
use crate::table::{MAX_NAMES, Name, Table};
use crate::trouble::Trouble;
use ipc_base::{PortRead, PortWrite};
use ipc_client::{Client, Received};
use ipc_words::ThreadId;
use std::alloc::Global;

pub(super) fn look_up<I: PortRead, O: PortWrite>(
    alloc: Global,
    client: &mut Client<I, O>,
    table: &mut Table,
    name: Name,
    asker: ThreadId,
) -> Result<Served, Trouble> {
    let found = table.find(name.as_slice());
    drop(name);
    match found {
        Some(place) => tell(alloc, client, table, place, asker),
        None => Ok(told(ThreadId::NILTHREAD, None)),
    }
}

// The thread at a place, if it is live.
fn tell<I: PortRead, O: PortWrite>(
    alloc: Global,
    client: &mut Client<I, O>,
    table: &mut Table,
    place: usize,
    asker: ThreadId,
) -> Result<Served, Trouble> {
    let thread = table.thread_at(place).unwrap_or(ThreadId::NILTHREAD);
    match standing_for(alloc, client, thread, asker)? {
        Standing::Ended => {
            table.drop_at(place);
            Ok(told(ThreadId::NILTHREAD, None))
        }
        Standing::Live(next) => Ok(told(thread, next)),
    }
}

/// The first name after these bytes whose thread is live.
pub(super) fn list<I: PortRead, O: PortWrite>(
    alloc: Global,
    client: &mut Client<I, O>,
    table: &mut Table,
    after: Vec<u8>,
    asker: ThreadId,
) -> Result<Served, Trouble> {
    let listed = list_after(alloc, client, table, after.as_slice(), asker);
    drop(after);
    listed
}

fn list_after<I: PortRead, O: PortWrite>(
    alloc: Global,
    client: &mut Client<I, O>,
    table: &mut Table,
    after: &[u8],
    asker: ThreadId,
) -> Result<Served, Trouble> {
    for _ in 0..MAX_NAMES {
        if let Some(served) = list_next(alloc, client, table, after, asker)? {
            return Ok(served);
        }
    }
    Ok(told(ThreadId::NILTHREAD, None))
}

// The first name after these bytes, if its thread is live. None where it has ended, and the name
// was dropped.
fn list_next<I: PortRead, O: PortWrite>(
    alloc: Global,
    client: &mut Client<I, O>,
    table: &mut Table,
    after: &[u8],
    asker: ThreadId,
) -> Result<Option<Served>, Trouble> {
    match table.after(after) {
        Some(place) => list_at(alloc, client, table, place, asker),
        None => Ok(Some(told(ThreadId::NILTHREAD, None))),
    }
}

// The name at a place, in the same way.
fn list_at<I: PortRead, O: PortWrite>(
    alloc: Global,
    client: &mut Client<I, O>,
    table: &mut Table,
    place: usize,
    asker: ThreadId,
) -> Result<Option<Served>, Trouble> {
    let thread = table.thread_at(place).unwrap_or(ThreadId::NILTHREAD);
    match standing_for(alloc, client, thread, asker)? {
        Standing::Ended => {
            table.drop_at(place);
            Ok(None)
        }
        Standing::Live(next) => Ok(Some(listed(alloc, table, place, next))),
    }
}

// The name at a place and its thread.
fn listed(alloc: Global, table: &Table, place: usize, next: Option<Received>) -> Served {
    let thread = table.thread_at(place).unwrap_or(ThreadId::NILTHREAD);
    match table.name_at(place).unwrap_or(&[]).to_vec(alloc) {
        Ok(name) => Served {
            reply: Reply::named(thread, name),
            next,
        },
        Err(_) => refused(NameError::NoMemory, ThreadId::NILTHREAD, next),
    }
}
