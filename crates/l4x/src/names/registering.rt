//! A name is registered.
use super::{Served, refused, told};
use crate::naming::NameError;
use crate::standing::{Standing, standing_for};
use crate::table::{Name, Table};
use crate::trouble::Trouble;
use ipc_base::{PortRead, PortWrite};
use ipc_client::{Client, Received};
use ipc_words::ThreadId;
use std::alloc::Global;

pub(super) fn register<I: PortRead, O: PortWrite>(
    alloc: Global,
    client: &mut Client<I, O>,
    table: &mut Table,
    name: Name,
    sender: ThreadId,
) -> Result<Served, Trouble> {
    match table.find(name.as_slice()) {
        Some(place) => {
            drop(name);
            take_over(alloc, client, table, place, sender)
        }
        None => add(alloc, client, table, name, sender),
    }
}

// Gives a name that is there to a sender, unless another live thread has it.
fn take_over<I: PortRead, O: PortWrite>(
    alloc: Global,
    client: &mut Client<I, O>,
    table: &mut Table,
    place: usize,
    sender: ThreadId,
) -> Result<Served, Trouble> {
    let holder = table.thread_at(place).unwrap_or(sender);
    if holder == sender {
        return Ok(told(sender, None));
    }
    match standing_for(alloc, client, holder, sender)? {
        Standing::Ended => {
            table.give(place, sender);
            Ok(told(sender, None))
        }
        Standing::Live(next) => Ok(refused(NameError::Taken, holder, next)),
    }
}

// Adds a name that is not there.
fn add<I: PortRead, O: PortWrite>(
    alloc: Global,
    client: &mut Client<I, O>,
    table: &mut Table,
    name: Name,
    sender: ThreadId,
) -> Result<Served, Trouble> {
    match refusal_where_full(alloc, client, table, sender) {
        Ok(None) => Ok(put_into(table, name, sender)),
        Ok(Some(refusal)) => {
            drop(name);
            Ok(refusal)
        }
        Err(trouble) => {
            drop(name);
            Err(trouble)
        }
    }
}

// Puts a name that is not there into a table that has room.
fn put_into(table: &mut Table, name: Name, sender: ThreadId) -> Served {
    match table.add(name, sender) {
        Ok(()) => told(sender, None),
        Err(_) => refused(NameError::NoMemory, ThreadId::NILTHREAD, None),
    }
}

// The refusal of one more name, where the table is full of names of live threads. Without one there
// is room.
fn refusal_where_full<I: PortRead, O: PortWrite>(
    alloc: Global,
    client: &mut Client<I, O>,
    table: &mut Table,
    sender: ThreadId,
) -> Result<Option<Served>, Trouble> {
    if !table.is_full() {
        return Ok(None);
    }
    let next = make_room(alloc, client, table, sender)?;
    if table.is_full() {
        return Ok(Some(refused(NameError::Full, ThreadId::NILTHREAD, next)));
    }
    drop(next);
    Ok(None)
}

// Drops the first name whose thread has ended. The search ends where a request is taken.
fn make_room<I: PortRead, O: PortWrite>(
    alloc: Global,
    client: &mut Client<I, O>,
    table: &mut Table,
    sender: ThreadId,
) -> Result<Option<Received>, Trouble> {
    for place in 0..table.len() {
        if let Some(next) = drop_ended(alloc, client, table, place, sender)? {
            return Ok(next);
        }
    }
    Ok(None)
}

// Drops the name at a place where its thread has ended. None where the next place is to be looked
// at; else the request that was taken, if any.
fn drop_ended<I: PortRead, O: PortWrite>(
    alloc: Global,
    client: &mut Client<I, O>,
    table: &mut Table,
    place: usize,
    sender: ThreadId,
) -> Result<Option<Option<Received>>, Trouble> {
    let thread = table.thread_at(place).unwrap_or(ThreadId::NILTHREAD);
    match standing_for(alloc, client, thread, sender)? {
        Standing::Ended => {
            table.drop_at(place);
            Ok(Some(None))
        }
        Standing::Live(None) => Ok(None),
        Standing::Live(next) => Ok(Some(next)),
    }
}
