ghost use Rattle.std.specs.Prelude.{IfOk, IsOk, IfSome, IfNone, Ok, Err, true, ◌≡◌, ◌+◌, ◌≤◌, ◌<◌, ◌^◌, not, nat_lt, length};
ghost use Rattle.std.specs.List.{AllByRecursion};
ghost use Rattle.ipc_words.specs.Limits.{max_frame_body, max_pieces};
ghost use Rattle.ipc_frame.specs.Numbers.{IsBytes, byte_values};
ghost use Rattle.ipc_frame.specs.Parts.{IsPiece, IsIpcr, end_size, pieces_text, ipcr_size};
ghost use Rattle.ipc_frame.specs.Frames.{IsFrame};
ghost use Rattle.ipc_frame.specs.Making.{ipcr_fault};

use crate::fault::FrameFault;
use crate::fitting::{are_bytes, are_words};
use crate::frame::Frame;
use crate::version::{CallEnd, end_fits, version_told};
use ipc_base::{Memory, from_slice};
use ipc_words::limits::{MAX_FRAME_BODY, MAX_MESSAGE_WORDS, MAX_PIECES};
use ipc_words::{IpcError, MsgTag, ThreadId};
use std::alloc::AllocError;
use std::marker::Model;

/// Bytes that belong at a pointer of the receiver.
#[derive(Drop)]
pub struct Placed {
    pointer: u64,
    bytes: Vec<u8>,
}

impl Model for Placed {
    ghost use Rattle.std.specs.Prelude.{◌<◌, ◌^◌};
    ghost use Rattle.ipc_items.specs.Pieces.{PlacedBytes};
    ghost use Rattle.ipc_frame.specs.Numbers.{IsBytes, byte_values};

    ghost Value = { PlacedBytes };

    ghost view = { λ p. record { pointer = p.pointer; bytes = p.bytes.items } };

    ghost invariant = { λ p. (p.pointer < byte_values ^ 8) × IsBytes p.bytes.items };
}

impl Placed {
    /// The bytes, copied.
    pub fn new<M: Memory>(memory: M, pointer: u64, bytes: &[u8]) -> Result<Placed, AllocError>
        ensures piece { IfOk result (λ piece.
            piece ≡ record { pointer = pointer; bytes = bytes.now }) }
        ensures ample { M.is_ample → IsOk result }
    {
        let copy = from_slice(memory, bytes)?;
        are_bytes(&copy);
        Ok(Placed {
            pointer,
            bytes: copy,
        })
    }

    /// Where the bytes belong.
    pub fn pointer(&self) -> u64
        ensures { result ≡ self.now.pointer }
    {
        self.pointer
    }

    /// The bytes.
    pub fn bytes(&self) -> &[u8]
        ensures bytes { result.now ≡ self.now.bytes }
        ensures fits { (self.now.pointer < byte_values ^ 8) × IsBytes self.now.bytes }
    {
        &self.bytes
    }
}

/// The parts of an outcome as it is sent, whatever they are.
#[derive(Drop)]
pub struct IpcrParts {
    /// What its version tells of the call: which it was, and when it was over; None in version 1.
    pub end: Option<CallEnd>,
    /// The tag of the message that was received.
    pub tag: MsgTag,
    /// The sender that is shown.
    pub sender: ThreadId,
    /// The ActualSender.
    pub actual: ThreadId,
    /// The ErrorCode.
    pub error: IpcError,
    /// The message registers from MR1 on, u + t of the tag, at most `MAX_MESSAGE_WORDS`.
    pub words: Vec<u64>,
    /// The bytes of the received strings, at most [`MAX_PIECES`] pieces.
    pub pieces: Vec<Placed>,
}

impl Model for IpcrParts {
    ghost use Rattle.ipc_frame.specs.Parts.{IpcrParts};

    ghost Value = { IpcrParts };

    ghost view = { λ p.
        record {
          end = p.end;
          tag = p.tag;
          sender = p.sender;
          actual = p.actual;
          error = p.error;
          words = p.words.items;
          pieces = p.pieces.items;
        } };
}

/// The outcome of a call as it is sent, within the limits of its frame; seen as its parts.
#[derive(Drop)]
pub struct IpcrFrame {
    parts: IpcrParts,
}

impl Model for IpcrFrame {
    ghost use Rattle.ipc_frame.specs.Parts.{IpcrParts, FitsIpcr};

    ghost Value = { IpcrParts };

    ghost view = { λ f. f.parts };

    ghost invariant = { λ f. FitsIpcr f.parts };
}

// Whether so many bytes hold the pieces.
fn pieces_within(pieces: &[Placed], most: usize) -> bool
    requires { most ≤ max_frame_body }
    ensures value { result ≡ not (nat_lt most (length (pieces_text pieces.now))) }
    ensures each { result ≡ true → AllByRecursion IsPiece pieces.now }
{
    let mut left = most;
    for piece in pieces {
        let size = 12 + piece.bytes().len();
        if left < size {
            return false;
        }
        left -= size;
    }
    true
}

// How many bytes of the body are neither words nor pieces: the kind, the numbers and the count of
// the pieces.
fn head_of(end: Option<CallEnd>) -> usize
    ensures count { result ≡ 34 + end_size end }
    ensures few { result ≤ 98 }
{
    34 + 8 * version_told(end).end_count()
}

// What is wrong with parts, where anything is.
fn fault_of(parts: &IpcrParts) -> Option<FrameFault>
    ensures fault { result ≡ ipcr_fault parts.now }
    ensures within { IfNone result (IsIpcr parts.now) }
    ensures pieces { IfNone result (AllByRecursion IsPiece parts.now.pieces) }
{
    let words = parts.tag.untyped() as usize + parts.tag.typed() as usize;
    if words > MAX_MESSAGE_WORDS {
        return Some(FrameFault::TooManyWords);
    }
    if parts.words.len() != words || parts.pieces.len() > MAX_PIECES {
        return Some(FrameFault::WrongSize);
    }
    let most = MAX_FRAME_BODY - (head_of(parts.end) + 8 * words);
    if !pieces_within(&parts.pieces, most) {
        return Some(FrameFault::TooLong);
    }
    None
}

impl IpcrFrame {
    /// The frame of these parts. Where it answers F4, F3 or F1, in this order, the parts are
    /// dropped. More than [`MAX_PIECES`] pieces are F3.
    pub fn new(parts: IpcrParts) -> Result<IpcrFrame, FrameFault>
        ensures frame { IfNone (ipcr_fault parts) (result ≡ Ok parts) }
        ensures fault { IfSome (ipcr_fault parts) (λ fault. result ≡ Err fault) }
    {
        match fault_of(&parts) {
            None => Ok(IpcrFrame::of(parts)),
            Some(fault) => {
                drop(parts);
                Err(fault)
            }
        }
    }

    // The frame of parts that are within the limits.
    pub(crate) fn of(parts: IpcrParts) -> IpcrFrame
        requires is { IsIpcr parts }
        requires pieces { AllByRecursion IsPiece parts.pieces }
        ensures { result ≡ parts }
    {
        are_words(&parts.words);
        IpcrFrame { parts }
    }

    /// Which call it was and when it was over; None in version 1.
    pub fn end(&self) -> Option<CallEnd>
        ensures { result ≡ self.now.end }
    {
        self.parts.end
    }

    // How many bytes of its body are neither words nor pieces.
    pub(crate) fn head(&self) -> usize
        ensures count { result ≡ 34 + end_size self.now.end }
        ensures few { result ≤ 98 }
    {
        head_of(self.parts.end)
    }

    /// The tag of the message that was received.
    pub fn tag(&self) -> MsgTag
        ensures { result ≡ self.now.tag }
    {
        self.parts.tag
    }

    /// The sender that is shown.
    pub fn sender(&self) -> ThreadId
        ensures { result ≡ self.now.sender }
    {
        self.parts.sender
    }

    /// The ActualSender.
    pub fn actual(&self) -> ThreadId
        ensures { result ≡ self.now.actual }
    {
        self.parts.actual
    }

    /// The ErrorCode.
    pub fn error(&self) -> IpcError
        ensures { result ≡ self.now.error }
    {
        self.parts.error
    }

    /// The message registers from MR1 on.
    pub fn words(&self) -> &[u64]
        ensures { result.now ≡ self.now.words }
    {
        &self.parts.words
    }

    /// The bytes of the received strings.
    pub fn pieces(&self) -> &[Placed]
        ensures pieces { result.now ≡ self.now.pieces }
        ensures few { length self.now.pieces ≤ max_pieces }
        ensures within { ipcr_size self.now ≤ max_frame_body }
    {
        &self.parts.pieces
    }

    // It is within the grammar. Its numbers are read so that the prover knows their ranges.
    pub(crate) fn is_frame(&self)
        ensures { IsFrame (Frame.Ipcr self.now) }
    {
        let parts = &self.parts;
        let _threads = (parts.sender.to_word(), parts.actual.to_word());
        let _registers = (parts.tag.to_word(), parts.error.to_word());
        end_fits(parts.end);
    }
}
