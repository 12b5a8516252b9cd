//! An answer is sent, and the next request received.
use super::Served;
use crate::messages::{message, message_with_name, name_buffer, next_of};
use crate::naming::Reply;
use crate::trouble::Trouble;
use ipc_base::{PortRead, PortWrite};
use ipc_client::{Client, Message, Received, Timeout};
use ipc_words::ThreadId;
use std::alloc::Global;

/// Sends what is answered. It brings the next request that comes, unless one is there already, or
/// the answer goes out alone.
pub(super) fn answer<I: PortRead, O: PortWrite>(
    alloc: Global,
    client: &mut Client<I, O>,
    sender: ThreadId,
    served: &Served,
    is_alone: bool,
) -> Result<Option<Received>, Trouble> {
    let message = message_of(alloc, &served.reply)?;
    if is_alone || served.next.is_some() {
        return send_at_once(client, sender, message);
    }
    answer_and_wait(alloc, client, sender, message)
}

// The message of a reply.
fn message_of(alloc: Global, reply: &Reply) -> Result<Message, Trouble> {
    let thread = reply.thread.to_word();
    match &reply.name {
        Some(name) => message_with_name(alloc, reply.label, &[thread], name.as_slice()),
        None => message(alloc, reply.label, &[thread]),
    }
}

// Sends a message to a thread that waits for it. One that does not gets none.
fn send_at_once<I: PortRead, O: PortWrite>(
    client: &mut Client<I, O>,
    to: ThreadId,
    message: Message,
) -> Result<Option<Received>, Trouble> {
    let answer = client.send(to, message, Timeout::zero())?;
    drop(next_of(answer)?);
    Ok(None)
}

// Answers, and receives the next request.
fn answer_and_wait<I: PortRead, O: PortWrite>(
    alloc: Global,
    client: &mut Client<I, O>,
    sender: ThreadId,
    message: Message,
) -> Result<Option<Received>, Trouble> {
    match name_buffer(alloc) {
        Ok(buffers) => next_of(client.reply_wait(sender, message, Timeout::never(), buffers)?),
        Err(trouble) => {
            drop(message);
            Err(trouble)
        }
    }
}
