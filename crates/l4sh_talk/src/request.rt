//! What a thread of a server is asked to do, and what it answers.
ghost use Rattle.std.specs.Prelude.{◌≡◌, IfOk};
ghost use Rattle.l4sh_talk.specs.Versions.{version_of_thread};
ghost use Rattle.l4sh_talk.specs.declared.request.Request.TheVariants as request;

use ipc_client::{Answer, Buffers, Message, Registers, Timeout};
use ipc_words::{Control, ThreadId};
use std::alloc::{AllocError, Global};

/// What a typed line asks for.
#[derive(Drop)]
pub enum Request {
    /// Send a message to a thread.
    Send {
        to: ThreadId,
        message: Message,
        send: Timeout,
    },
    /// Receive a message of a sender that the FromSpecifier accepts.
    Receive {
        from: ThreadId,
        receive: Timeout,
        buffers: Buffers,
    },
    /// Send a message to a thread, and receive the answer of that thread alone.
    Call {
        to: ThreadId,
        message: Message,
        send: Timeout,
        receive: Timeout,
        buffers: Buffers,
    },
    /// Answer a thread that waits for it, and receive a message of any thread.
    ReplyWait {
        to: ThreadId,
        message: Message,
        receive: Timeout,
        buffers: Buffers,
    },
    /// ExchangeRegisters: cancel phases of a thread of the own space.
    ExchangeRegisters {
        dest: ThreadId,
        control: Control,
    },
}

impl Request {
    ghost use Rattle.std.specs.Prelude.{◌≡◌, IfOk};
    ghost use Rattle.l4sh_talk.specs.Versions.{request_of_version};

    /// The thread of which it is asked.
    pub(crate) fn thread(&self) -> ThreadId {
        match self {
            Request::Send { to, .. } => *to,
            Request::Receive { from, .. } => *from,
            Request::Call { to, .. } => *to,
            Request::ReplyWait { to, .. } => *to,
            Request::ExchangeRegisters { dest, .. } => *dest,
        }
    }

    /// The same request of another version of its thread.
    ///
    /// # Errors
    ///
    /// There is no memory.
    pub(crate) fn of_version(&self, alloc: Global, version: u32) -> Result<Request, AllocError>
        ensures { IfOk result (λ request. request ≡ request_of_version version self.now) }
    {
        match self {
            Request::Send { to, message, send } => Ok(Request::Send {
                to: version_of(*to, version),
                message: copy_message(alloc, message)?,
                send: *send,
            }),
            Request::Receive {
                from,
                receive,
                buffers,
            } => Ok(Request::Receive {
                from: version_of(*from, version),
                receive: *receive,
                buffers: copy_buffers(alloc, buffers)?,
            }),
            Request::Call {
                to,
                message,
                send,
                receive,
                buffers,
            } => {
                let to = version_of(*to, version);
                copy_call(alloc, to, message, *send, *receive, buffers)
            }
            Request::ReplyWait {
                to,
                message,
                receive,
                buffers,
            } => {
                let to = version_of(*to, version);
                copy_reply_wait(alloc, to, message, *receive, buffers)
            }
            Request::ExchangeRegisters { dest, control } => Ok(Request::ExchangeRegisters {
                dest: version_of(*dest, version),
                control: *control,
            }),
        }
    }
}

/// Another version of a thread.
pub(crate) fn version_of(thread: ThreadId, version: u32) -> ThreadId
    ensures { result ≡ version_of_thread version thread }
{
    ThreadId::from_word(u64::from(version) + 0x1_0000_0000 * u64::from(thread.number()))
}

fn copy_call(
    alloc: Global,
    to: ThreadId,
    message: &Message,
    send: Timeout,
    receive: Timeout,
    buffers: &Buffers,
) -> Result<Request, AllocError>
    ensures { IfOk result (λ r. r ≡ request.Call to message.now send receive buffers.now) }
{
    Ok(Request::Call {
        to,
        message: copy_message(alloc, message)?,
        send,
        receive,
        buffers: copy_buffers(alloc, buffers)?,
    })
}

fn copy_reply_wait(
    alloc: Global,
    to: ThreadId,
    message: &Message,
    receive: Timeout,
    buffers: &Buffers,
) -> Result<Request, AllocError>
    ensures { IfOk result (λ r. r ≡ request.ReplyWait to message.now receive buffers.now) }
{
    Ok(Request::ReplyWait {
        to,
        message: copy_message(alloc, message)?,
        receive,
        buffers: copy_buffers(alloc, buffers)?,
    })
}

fn copy_message(alloc: Global, message: &Message) -> Result<Message, AllocError>
    ensures { IfOk result (λ copy. copy ≡ message.now) }
{
    Ok(Message {
        tag: message.tag,
        sender: message.sender,
        words: message.words.to_vec(alloc)?,
        payload: message.payload.to_vec(alloc)?,
    })
}

fn copy_buffers(alloc: Global, buffers: &Buffers) -> Result<Buffers, AllocError>
    ensures { IfOk result (λ copy. copy ≡ buffers.now) }
{
    Ok(Buffers {
        acceptor: buffers.acceptor,
        words: buffers.words.to_vec(alloc)?,
    })
}

/// What the server answered.
#[derive(Drop)]
pub enum Reply {
    /// What became of a call.
    Call(Answer),
    /// What ExchangeRegisters answers.
    Registers(Registers),
}
