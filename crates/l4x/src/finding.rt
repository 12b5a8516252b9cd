//! Where a thread is: by its number, or by its name.
use crate::messages::{code_of, message_with_name, name_buffer, next_of};
use crate::naming::{LOOK_UP, NAMES_NUMBER, NameError, REGISTER};
use crate::standing::{Standing, standing_of};
use crate::trouble::Trouble;
use ipc_base::{PortRead, PortWrite};
use ipc_client::{Answer, Client, Message, Received, Timeout};
use ipc_words::ThreadId;
use std::alloc::Global;

/// Up to which version a thread is looked for.
pub const MAX_VERSION: u32 = 63;

/// How long a name server has for each phase of a look up, in microseconds: one that is stopped
/// holds nobody up for ever.
const LOOK_UP_TIME: u64 = 2_000_000;

/// The ErrorCodes of a send phase and of a receive phase that took longer than their timeouts.
const TOOK_LONGER: [u64; 2] = [0x2, 0x3];

/// The live thread of a number, if its version is 1 to 63.
pub fn live_thread<I: PortRead, O: PortWrite>(
    alloc: Global,
    client: &mut Client<I, O>,
    number: u16,
) -> Result<Option<ThreadId>, Trouble> {
    for version in 1..=MAX_VERSION {
        if let Some(thread) = ThreadId::global(u32::from(number), version)
            && is_live(alloc, client, thread)?
        {
            return Ok(Some(thread));
        }
    }
    Ok(None)
}

// Whether a thread is live. A request of it that is taken meanwhile is dropped.
fn is_live<I: PortRead, O: PortWrite>(
    alloc: Global,
    client: &mut Client<I, O>,
    thread: ThreadId,
) -> Result<bool, Trouble> {
    let standing = standing_of(alloc, client, thread)?;
    let has_ended = matches!(&standing, Standing::Ended);
    drop(standing);
    Ok(!has_ended)
}

/// Registers a name as the own thread. The name server has this time for its answer.
pub fn register<I: PortRead, O: PortWrite>(
    alloc: Global,
    client: &mut Client<I, O>,
    name: &str,
    wait: Timeout,
) -> Result<(), Trouble> {
    let _ = ask(alloc, client, REGISTER, name, wait)?;
    Ok(())
}

/// The live thread that has a name.
pub fn look_up<I: PortRead, O: PortWrite>(
    alloc: Global,
    client: &mut Client<I, O>,
    name: &str,
) -> Result<Option<ThreadId>, Trouble> {
    match ask(alloc, client, LOOK_UP, name, Timeout::micros(LOOK_UP_TIME)) {
        Ok(ThreadId::NILTHREAD) => Ok(None),
        Ok(thread) => Ok(Some(thread)),
        Err(Trouble::Failed(code)) if TOOK_LONGER.contains(&code) => Err(Trouble::SilentNames),
        Err(trouble) => Err(trouble),
    }
}

// Asks the name server, and answers the thread that it tells.
fn ask<I: PortRead, O: PortWrite>(
    alloc: Global,
    client: &mut Client<I, O>,
    label: u64,
    name: &str,
    wait: Timeout,
) -> Result<ThreadId, Trouble> {
    let Some(server) = live_thread(alloc, client, NAMES_NUMBER)? else {
        return Err(Trouble::NoNames);
    };
    let request = message_with_name(alloc, label, &[], name.as_bytes())?;
    thread_in(call(alloc, client, server, request, wait)?)
}

// Sends a request, and waits for its answer.
fn call<I: PortRead, O: PortWrite>(
    alloc: Global,
    client: &mut Client<I, O>,
    server: ThreadId,
    request: Message,
    wait: Timeout,
) -> Result<Answer, Trouble> {
    match name_buffer(alloc) {
        Ok(buffers) => Ok(client.call(server, request, wait, wait, buffers)?),
        Err(trouble) => {
            drop(request);
            Err(trouble)
        }
    }
}

// The thread that an answer of the name server tells.
fn thread_in(answer: Answer) -> Result<ThreadId, Trouble> {
    let code = code_of(&answer).unwrap_or(0);
    match next_of(answer)? {
        Some(reply) => {
            let told = told_by(&reply);
            drop(reply);
            told
        }
        None => Err(Trouble::Failed(code)),
    }
}

// The same of its message.
fn told_by(reply: &Received) -> Result<ThreadId, Trouble> {
    match reply.label() {
        0 => Ok(ThreadId::from_word(reply.word(0).unwrap_or(0))),
        number => Err(Trouble::Name(NameError::of_number(number))),
    }
}
