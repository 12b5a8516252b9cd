ghost use Rattle.std.specs.Prelude.{IfSome, IfNone, Ok, Err, ◌≡◌, ◌≤◌, ◌^◌, length};
ghost use Rattle.ipc_words.specs.Limits.{max_buffer_words, max_frame_body};
ghost use Rattle.ipc_frame.specs.Parts.{IsIpc, ipc_size};
ghost use Rattle.ipc_frame.specs.Frames.{IsFrame};
ghost use Rattle.ipc_frame.specs.Making.{ipc_fault};

use crate::fault::FrameFault;
use crate::fitting::{are_bytes, are_words};
use crate::frame::Frame;
use ipc_words::limits::{MAX_BUFFER_WORDS, MAX_FRAME_BODY, MAX_MESSAGE_WORDS};
use ipc_words::{MsgTag, ThreadId, Timeouts};
use std::marker::Model;

/// The parts of a call as it is sent, whatever they are.
#[derive(Drop)]
pub struct IpcParts {
    /// The receiver of the send phase; nilthread: no send phase.
    pub to: ThreadId,
    /// The FromSpecifier; nilthread: no receive phase.
    pub from: ThreadId,
    /// How long the two phases may wait.
    pub timeouts: Timeouts,
    /// The VirtualSender.
    pub originator: ThreadId,
    /// The tag.
    pub tag: MsgTag,
    /// The acceptor, BR0.
    pub acceptor: u64,
    /// The message registers from MR1 on, u + t of the tag, at most `MAX_MESSAGE_WORDS`.
    pub words: Vec<u64>,
    /// The buffer registers from BR1 on, at most 32.
    pub buffer_words: Vec<u64>,
    /// The bytes that the string items name.
    pub payload: Vec<u8>,
}

impl Model for IpcParts {
    ghost use Rattle.ipc_frame.specs.Parts.{IpcParts};

    ghost Value = { IpcParts };

    ghost view = { λ p.
        record {
          to = p.to;
          from = p.from;
          timeouts = p.timeouts;
          originator = p.originator;
          tag = p.tag;
          acceptor = p.acceptor;
          words = p.words.items;
          buffer_words = p.buffer_words.items;
          payload = p.payload.items;
        } };
}

/// A call as it is sent, within the limits of its frame; seen as its parts.
#[derive(Drop)]
pub struct IpcFrame {
    parts: IpcParts,
}

impl Model for IpcFrame {
    ghost use Rattle.ipc_frame.specs.Parts.{IpcParts, FitsIpc};

    ghost Value = { IpcParts };

    ghost view = { λ f. f.parts };

    ghost invariant = { λ f. FitsIpc f.parts };
}

// What is wrong with parts, where anything is.
fn fault_of(parts: &IpcParts) -> Option<FrameFault>
    ensures fault { result ≡ ipc_fault parts.now }
    ensures within { IfNone result (IsIpc parts.now) }
{
    let words = parts.tag.untyped() as usize + parts.tag.typed() as usize;
    if words > MAX_MESSAGE_WORDS || parts.buffer_words.len() > MAX_BUFFER_WORDS {
        return Some(FrameFault::TooManyWords);
    }
    if parts.words.len() != words {
        return Some(FrameFault::WrongSize);
    }
    let numbers = 46 + 8 * words + 8 * parts.buffer_words.len();
    if parts.payload.len() > MAX_FRAME_BODY - numbers {
        return Some(FrameFault::TooLong);
    }
    None
}

impl IpcFrame {
    /// The frame of these parts. Where it answers F4, F3 or F1, in this order, the parts are
    /// dropped.
    pub fn new(parts: IpcParts) -> Result<IpcFrame, FrameFault>
        ensures frame { IfNone (ipc_fault parts) (result ≡ Ok parts) }
        ensures fault { IfSome (ipc_fault parts) (λ fault. result ≡ Err fault) }
    {
        match fault_of(&parts) {
            None => Ok(IpcFrame::of(parts)),
            Some(fault) => {
                drop(parts);
                Err(fault)
            }
        }
    }

    // The frame of parts that are within the limits.
    pub(crate) fn of(parts: IpcParts) -> IpcFrame
        requires { IsIpc parts }
        ensures { result ≡ parts }
    {
        are_words(&parts.words);
        are_words(&parts.buffer_words);
        are_bytes(&parts.payload);
        IpcFrame { parts }
    }

    /// The receiver of the send phase; nilthread: no send phase.
    pub fn to(&self) -> ThreadId
        ensures { result ≡ self.now.to }
    {
        self.parts.to
    }

    /// The FromSpecifier; nilthread: no receive phase.
    pub fn from(&self) -> ThreadId
        ensures { result ≡ self.now.from }
    {
        self.parts.from
    }

    /// How long the two phases may wait.
    pub fn timeouts(&self) -> Timeouts
        ensures { result ≡ self.now.timeouts }
    {
        self.parts.timeouts
    }

    /// The VirtualSender.
    pub fn originator(&self) -> ThreadId
        ensures { result ≡ self.now.originator }
    {
        self.parts.originator
    }

    /// The tag.
    pub fn tag(&self) -> MsgTag
        ensures { result ≡ self.now.tag }
    {
        self.parts.tag
    }

    /// The acceptor, BR0.
    pub fn acceptor(&self) -> u64
        ensures { result ≡ self.now.acceptor }
    {
        self.parts.acceptor
    }

    /// The message registers from MR1 on.
    pub fn words(&self) -> &[u64]
        ensures { result.now ≡ self.now.words }
    {
        &self.parts.words
    }

    /// The buffer registers from BR1 on.
    pub fn buffer_words(&self) -> &[u64]
        ensures buffer_words { result.now ≡ self.now.buffer_words }
        ensures few { length self.now.buffer_words ≤ max_buffer_words }
    {
        &self.parts.buffer_words
    }

    /// The bytes that the string items name.
    pub fn payload(&self) -> &[u8]
        ensures payload { result.now ≡ self.now.payload }
        ensures within { ipc_size self.now ≤ max_frame_body }
    {
        &self.parts.payload
    }

    /// It is within the grammar. Its numbers are read so that the prover knows their ranges.
    pub fn is_frame(&self)
        ensures { IsFrame (Frame.Ipc self.now) }
    {
        let _parts = &self.parts;
        let _threads = (
            self.to().to_word(),
            self.from().to_word(),
            self.originator().to_word(),
        );
        let _registers = (
            self.tag().to_word(),
            self.acceptor(),
            self.timeouts().to_word(),
        );
    }
}
