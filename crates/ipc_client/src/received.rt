//! A message that was received.
ghost use Rattle.std.specs.Prelude.{◌≡◌, ◌≤◌, IfOk, length, drop, slice_get, take};
ghost use Rattle.ipc_words.specs.MsgTag.{label_of, untyped_of};
ghost use Rattle.ipc_items.specs.Pieces.{joined};
ghost use Rattle.ipc_items.specs.Strings.{strings_of};
ghost use Rattle.ipc_client.specs.Receiving.{item_strings, message_in, received_strings};

use crate::answer::{Answer, Failure};
use ipc_frame::{CallEnd, IpcrFrame, Placed};
use ipc_words::ThreadId;
use std::alloc::{AllocError, Global};
use std::marker::Model;

/// A message that was received, or the end of a call that receives none; seen as the parts of its
/// frame.
#[derive(Drop)]
pub struct Received {
    outcome: IpcrFrame,
}

impl Model for Received {
    ghost use Rattle.ipc_frame.specs.Parts.{IpcrParts};

    ghost Value = { IpcrParts };

    ghost view = { λ r. r.outcome };
}

impl Answer {
    /// The message, where the call came to its end.
    ///
    /// # Errors
    ///
    /// The kernel refused the call, or the call failed.
    pub fn message(self) -> Result<Received, Failure>
        ensures { result ≡ message_in self }
    {
        match self {
            Answer::Outcome(outcome) if outcome.tag().has_failed() => Err(Failure::Failed(
                outcome.error(),
            )),
            Answer::Outcome(outcome) => Ok(Received { outcome }),
            Answer::Refused(number) => Err(Failure::Refused(number)),
        }
    }
}

impl Received {
    /// Which call it was and when it was over; None in version 1.
    pub fn end(&self) -> Option<CallEnd>
        ensures { result ≡ self.now.end }
    {
        self.outcome.end()
    }

    /// The label, 48 bits.
    pub fn label(&self) -> u64
        ensures { result ≡ label_of self.now.tag }
    {
        self.outcome.tag().label()
    }

    /// The sender that is shown, to whom a reply goes.
    pub fn sender(&self) -> ThreadId
        ensures { result ≡ self.now.sender }
    {
        self.outcome.sender()
    }

    /// The untyped words, MR1 to MRu.
    pub fn words(&self) -> &[u64]
        ensures { result.now ≡ take (untyped_of self.now.tag) self.now.words }
    {
        let words = self.outcome.words();
        &words[..(self.outcome.tag().untyped() as usize).min(words.len())]
    }

    /// The word at a place among the untyped words, counted from 0.
    pub fn word(&self, place: usize) -> Option<u64>
        ensures { result ≡ slice_get (take (untyped_of self.now.tag) self.now.words) place }
    {
        self.words().get(place).copied()
    }

    // The typed words, two for each string.
    fn items(&self) -> &[u64]
        ensures { result.now ≡ drop (untyped_of self.now.tag) self.now.words }
    {
        let words = self.outcome.words();
        &words[(self.outcome.tag().untyped() as usize).min(words.len())..]
    }

    /// The bytes of all strings, one after the other.
    ///
    /// # Errors
    ///
    /// There is no memory.
    pub fn bytes(&self, alloc: Global) -> Result<Vec<u8>, AllocError>
        ensures { IfOk result (λ bytes. bytes.items ≡ joined self.now.pieces) }
    {
        join(alloc, self.outcome.pieces())
    }

    /// The strings, in order: each has as many of the bytes as its simple item says.
    ///
    /// # Errors
    ///
    /// There is no memory.
    pub fn strings(&self, alloc: Global) -> Result<Vec<Vec<u8>>, AllocError>
        ensures { IfOk result (λ strings. strings_of strings.items ≡ received_strings self.now) }
    {
        let bytes = self.bytes(alloc)?;
        cut(alloc, self.items(), &bytes)
    }
}

// The bytes of pieces, joined.
fn join(alloc: Global, pieces: &[Placed]) -> Result<Vec<u8>, AllocError>
    ensures { IfOk result (λ bytes. bytes.items ≡ joined pieces.now) }
{
    let mut bytes = Vec::new(alloc);
    for piece in pieces {
        bytes.extend_from_slice(piece.bytes())?;
    }
    Ok(bytes)
}

// A copy of bytes.
fn copied(alloc: Global, bytes: &[u8]) -> Result<Vec<u8>, AllocError>
    ensures { IfOk result (λ copy. copy.items ≡ bytes.now) }
{
    let mut copy = Vec::with_capacity(alloc, bytes.len())?;
    copy.extend_from_slice(bytes)?;
    Ok(copy)
}

// Cuts bytes into the strings of simple items.
fn cut(alloc: Global, items: &[u64], bytes: &[u8]) -> Result<Vec<Vec<u8>>, AllocError>
    ensures { IfOk result (λ strings. strings_of strings.items ≡ item_strings items.now bytes.now) }
{
    let mut strings = Vec::with_capacity(alloc, items.len() / 2)?;
    let mut items = items;
    let mut bytes = bytes;
    'strings: while items.len() >= 2 {
        let (own, behind) = split(bytes, items[0] / 1024);
        strings.push(copied(alloc, own)?)?;
        bytes = behind;
        items = &items[2..];
    }
    Ok(strings)
}

// At most so many bytes, and those behind them.
fn split(bytes: &[u8], length: u64) -> (&[u8], &[u8])
    ensures own { result.0.now ≡ take length bytes.now }
    ensures behind { result.1.now ≡ drop length bytes.now }
{
    let count = (length as usize).min(bytes.len());
    bytes.split_at(count)
}
