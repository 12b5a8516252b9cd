//! Callers of the key-value server.
use crate::finding::{live_thread, look_up};
use crate::gateway::NO_SERVER;
use crate::keyvalue::{FOUND, GET, PUT};
use crate::messages::{Received, message, message_of};
use crate::trouble::Trouble;
use ipc_base::{PortRead, PortWrite};
use ipc_client::{Buffers, Client, Timeout};
use ipc_words::ThreadId;
use std::alloc::Global;

/// Who is asked.
#[derive(Clone, Copy)]
pub enum Server {
    /// Thread 1 itself.
    KeyValue,
    /// Thread 2, which passes it on.
    Gateway,
}

impl Server {
    /// Its name.
    pub fn name(self) -> &'static str {
        match self {
            Server::KeyValue => "keyvalue",
            Server::Gateway => "gateway",
        }
    }

    /// Its thread number.
    pub fn number(self) -> u16 {
        match self {
            Server::KeyValue => 1,
            Server::Gateway => 2,
        }
    }
}

/// How a server is looked for.
#[derive(Clone, Copy)]
pub enum Search {
    /// By its thread number.
    Number,
    /// By its name.
    Name,
}

/// The live thread of a server.
pub fn thread_of<I: PortRead, O: PortWrite>(
    alloc: Global,
    client: &mut Client<I, O>,
    server: Server,
    search: Search,
) -> Result<ThreadId, Trouble> {
    let found = match search {
        Search::Number => live_thread(alloc, client, server.number())?,
        Search::Name => look_up(alloc, client, server.name())?,
    };
    found.ok_or(Trouble::NoThread(server, search))
}

/// Puts a value under a key.
pub fn put<I: PortRead, O: PortWrite>(
    alloc: Global,
    client: &mut Client<I, O>,
    server: ThreadId,
    key: u64,
    value: u64,
) -> Result<(), Trouble> {
    let _ = ask(alloc, client, server, PUT, &[key, value])?;
    Ok(())
}

/// The value under a key, None where there is none.
pub fn get<I: PortRead, O: PortWrite>(
    alloc: Global,
    client: &mut Client<I, O>,
    server: ThreadId,
    key: u64,
) -> Result<Option<u64>, Trouble> {
    let answer = ask(alloc, client, server, GET, &[key])?;
    if answer.label == FOUND {
        Ok(Some(answer.words[0]))
    } else {
        Ok(None)
    }
}

/// Sends a request, and waits for its answer.
fn ask<I: PortRead, O: PortWrite>(
    alloc: Global,
    client: &mut Client<I, O>,
    server: ThreadId,
    label: u64,
    words: &[u64],
) -> Result<Received, Trouble> {
    let request = message(alloc, label, words)?;
    let never = Timeout::never();
    let answer = client.call(server, request, never, never, Buffers::none(alloc))?;
    match message_of(answer)? {
        Ok(answer) if answer.label == NO_SERVER => Err(Trouble::NotPassed),
        Ok(answer) => Ok(answer),
        Err(code) => Err(Trouble::Failed(code)),
    }
}
