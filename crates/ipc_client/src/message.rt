//! What a call brings.
use ipc_words::{MsgTag, ThreadId};
use std::alloc::Global;
use std::marker::Model;

/// A message as it is put into the frame; seen as its parts.
#[derive(Drop)]
pub struct Message {
    /// The tag. It counts the words: u + t is their number.
    pub tag: MsgTag,
    /// The VirtualSender, where the tag has p.
    pub sender: ThreadId,
    /// The message registers from MR1 on, at most `MAX_MESSAGE_WORDS`.
    pub words: Vec<u64>,
    /// The bytes that the string items of the words name.
    pub payload: Vec<u8>,
}

impl Model for Message {
    ghost use Rattle.ipc_client.specs.Messages.{MessageParts};

    ghost Value = { MessageParts };

    ghost view = { λ m. record { tag = m.tag; sender = m.sender; words = m.words.items; payload = m.payload.items } };
}

impl Message {
    ghost use Rattle.std.specs.Prelude.{◌≡◌};
    ghost use Rattle.ipc_client.specs.Messages.{no_message};

    /// No words and no strings. Takes no memory.
    pub fn empty(alloc: Global) -> Message
        ensures { result ≡ no_message }
    {
        Message {
            tag: MsgTag::EMPTY,
            sender: ThreadId::NILTHREAD,
            words: Vec::new(alloc),
            payload: Vec::new(alloc),
        }
    }
}

/// Where a receive phase puts strings, as it is put into the frame; seen as its parts.
#[derive(Drop)]
pub struct Buffers {
    /// The acceptor, BR0: its bit 0 says that strings are accepted.
    pub acceptor: u64,
    /// The buffer registers from BR1 on, at most 32.
    pub words: Vec<u64>,
}

impl Model for Buffers {
    ghost use Rattle.ipc_client.specs.Messages.{BufferParts};

    ghost Value = { BufferParts };

    ghost view = { λ b. record { acceptor = b.acceptor; words = b.words.items } };
}

impl Buffers {
    ghost use Rattle.std.specs.Prelude.{◌≡◌};
    ghost use Rattle.ipc_client.specs.Messages.{no_buffers};

    /// No strings are accepted. Takes no memory.
    pub fn none(alloc: Global) -> Buffers
        ensures { result ≡ no_buffers }
    {
        Buffers {
            acceptor: 0,
            words: Vec::new(alloc),
        }
    }
}
