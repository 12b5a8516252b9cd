// The server and the client of the README of ipc_client, over ports in memory.
use crate::comparing::same;
use ipc_base::{MemoryPort, PortRead, PortWrite};
use ipc_client::{Buffers, Client, Message, Timeout};
use ipc_items::StringList;
use ipc_words::ThreadId;
use std::alloc::Global;
use std::test::Fail;

// Answers each word with the next one.
fn serve<R: PortRead, W: PortWrite>(
    alloc: Global,
    client: &mut Client<R, W>,
    turns: u32,
) -> Result<(), Fail> {
    let mut answer = client.receive(ThreadId::ANYTHREAD, Timeout::never(), Buffers::none(alloc))?;
    for _ in 0..turns {
        let Ok(request) = answer.message() else {
            return Err(Fail::new("no request"));
        };
        let next = request.word(0).unwrap_or(0).wrapping_add(1);
        let reply = Message::of(alloc, 0, &[next], &StringList::new(alloc))?;
        let none = Buffers::none(alloc);
        answer = client.reply_wait(request.sender(), reply, Timeout::never(), none)?;
    }
    client.bye()?;
    Ok(())
}

// The next word, as the server says.
fn next_of<R: PortRead, W: PortWrite>(
    alloc: Global,
    client: &mut Client<R, W>,
    server: ThreadId,
    word: u64,
) -> Result<Option<u64>, Fail> {
    let request = Message::of(alloc, 0, &[word], &StringList::new(alloc))?;
    let (send, receive) = (Timeout::never(), Timeout::never());
    let answer = client.call(server, request, send, receive, Buffers::none(alloc))?;
    match answer.message() {
        Ok(reply) => Ok(reply.word(0)),
        Err(_) => Ok(None),
    }
}

// IPCR: tag 1, sender 2.1, word 7; twice
const SEVENS: [u8; 92] = [
    0, 0, 0, 0x2a, 0x82, 0, 0, 0, 0, 0, 0, 0, 1, 0, 0, 0, 2, 0, 0, 0, 1, 0, 0, 0, 0, 0, 0, 0, 0, 0,
    0, 0, 0, 0, 0, 0, 0, 0, 0, 0, 0, 0, 0, 0, 7, 0, 0, 0, 0, 0x2a, 0x82, 0, 0, 0, 0, 0, 0, 0, 1, 0,
    0, 0, 2, 0, 0, 0, 1, 0, 0, 0, 0, 0, 0, 0, 0, 0, 0, 0, 0, 0, 0, 0, 0, 0, 0, 0, 0, 0, 0, 0, 7, 0,
];

// Serves one turn over these ports.
fn serve_once(
    alloc: Global,
    reader: &mut MemoryPort<'_>,
    writer: &mut MemoryPort<'_>,
) -> Result<(), Fail> {
    let mut client = Client::new(alloc, reader, writer);
    serve(alloc, &mut client, 1)
}

#[test]
fn a_server_answers_a_word(rt: HostRuntime) -> Result<(), Fail> {
    let mut reader = MemoryPort::new(rt.alloc(), &SEVENS);
    let mut writer = MemoryPort::new(rt.alloc(), &[]);
    serve_once(rt.alloc(), &mut reader, &mut writer)
}

// The word that the server says is next, over these ports.
fn next_over(
    alloc: Global,
    reader: &mut MemoryPort<'_>,
    writer: &mut MemoryPort<'_>,
) -> Result<Option<u64>, Fail> {
    let mut client = Client::new(alloc, reader, writer);
    next_of(alloc, &mut client, ThreadId::from_word(0x2_0000_0001), 6)
}

#[test]
fn a_client_is_told_the_word_of_the_reply(rt: HostRuntime) -> Result<(), Fail> {
    let mut reader = MemoryPort::new(rt.alloc(), &SEVENS);
    let mut writer = MemoryPort::new(rt.alloc(), &[]);
    let next = next_over(rt.alloc(), &mut reader, &mut writer)?;
    same(&rt, next, Some(7));
    Ok(())
}
