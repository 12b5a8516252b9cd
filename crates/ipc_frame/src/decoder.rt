ghost use Rattle.std.specs.Prelude.{◌≡◌, ◌≢◌, true, false, is_err, [], Ok, Err, IfErr};
ghost use Rattle.ipc_frame.specs.Stream.{more};
ghost use Rattle.ipc_frame.specs.Decoding.{Feeds, StopsFor, stream_at};

use crate::decoding::take_frames;
use crate::fault::FrameFault;
use crate::frame::Frame;
use crate::kind::Side;
use ipc_base::Memory;
use std::alloc::Global;
use std::marker::Model;

/// Reads frames from a stream that comes in pieces, cut anywhere.
///
/// It is seen as its side, the bytes behind the last whole frame, and whether it has answered a
/// fault.
#[derive(Drop)]
pub struct Decoder {
    alloc: Global,
    side: Side,
    held: Vec<u8>,
    is_spent: bool,
}

impl Model for Decoder {
    ghost use Rattle.ipc_frame.specs.Decoding.{Decoding};

    ghost Value = { Decoding };

    ghost view = { λ d. record { side = d.side; bytes = d.held.items; is_spent = d.is_spent } };
}

impl Decoder {
    /// A decoder of a stream from its beginning. Takes no memory.
    pub fn new(alloc: Global, side: Side) -> Decoder
        ensures { result ≡ record { side = side; bytes = []; is_spent = false } }
    {
        Decoder {
            alloc,
            side,
            held: Vec::new(alloc),
            is_spent: false,
        }
    }

    /// Takes a piece, and appends each frame that is whole now, those before a fault too. The
    /// frames so far and the bytes behind them are those of the stream so far and the piece.
    ///
    /// F1 to F4 and F15: the fault that the stream shows; F14: no memory. After an error it answers
    /// F13 for good.
    pub fn feed(&mut self, piece: &[u8], frames: &mut Vec<Frame>) -> Result<(), FrameFault>
        ensures fed { self.old.is_spent ≡ false →
            Feeds (more self.old.side (stream_at frames.old.items self.old.bytes) piece.now)
            frames.new.items self.new result }
        ensures side { self.new.side ≡ self.old.side }
        ensures spent { self.old.is_spent ≡ true → result ≡ Err FrameFault.Spent }
        ensures still { self.old.is_spent ≡ true → self.new ≡ self.old }
        ensures kept { self.old.is_spent ≡ true → frames.new.items ≡ frames.old.items }
    {
        let alloc = self.alloc;
        self.feed_in(alloc, piece, frames)
    }

    /// As [`Decoder::feed`], with memory that is lent: where it is ample, F14 is not the answer.
    pub fn feed_in<M: Memory>(
        &mut self,
        memory: M,
        piece: &[u8],
        frames: &mut Vec<Frame>,
    ) -> Result<(), FrameFault>
        ensures fed { self.old.is_spent ≡ false →
            Feeds (more self.old.side (stream_at frames.old.items self.old.bytes) piece.now)
            frames.new.items self.new result }
        ensures ample { M.is_ample → self.old.is_spent ≡ false → IfErr result (StopsFor
            (more self.old.side (stream_at frames.old.items self.old.bytes) piece.now)
            frames.new.items) }
        ensures side { self.new.side ≡ self.old.side }
        ensures spent { self.old.is_spent ≡ true → result ≡ Err FrameFault.Spent }
        ensures still { self.old.is_spent ≡ true → self.new ≡ self.old }
        ensures kept { self.old.is_spent ≡ true → frames.new.items ≡ frames.old.items }
    {
        if self.is_spent {
            return Err(FrameFault::Spent);
        }
        let fed = self.take(memory, piece, frames);
        self.is_spent = fed.is_err();
        fed
    }

    // The same, of a decoder that has not answered a fault.
    fn take<M: Memory>(
        &mut self,
        memory: M,
        piece: &[u8],
        frames: &mut Vec<Frame>,
    ) -> Result<(), FrameFault>
        ensures taken { Feeds (more self.old.side (stream_at frames.old.items self.old.bytes)
            piece.now) frames.new.items
            (record self.new { is_spent = is_err result }) result }
        ensures ample { M.is_ample → IfErr result (StopsFor
            (more self.old.side (stream_at frames.old.items self.old.bytes) piece.now)
            frames.new.items) }
        ensures side { self.new.side ≡ self.old.side }
    {
        if memory.extend(&mut self.held, piece).is_err() {
            return Err(FrameFault::NoMemory);
        }
        match take_frames(memory, self.side, &self.held, frames) {
            Ok(used) => {
                self.held.rotate_left(used);
                self.held.truncate(self.held.len() - used);
                Ok(())
            }
            Err(fault) => Err(fault),
        }
    }

    /// The stream has ended: F9 where it ends inside a frame. After an error it answers F13 for
    /// good.
    pub fn finish(&mut self) -> Result<(), FrameFault>
        ensures whole { self.old.is_spent ≡ false → self.old.bytes ≡ [] → (result ≡ Ok tt)
            × (self.new ≡ self.old) }
        ensures inside { self.old.is_spent ≡ false → self.old.bytes ≢ [] →
            (result ≡ Err FrameFault.Unfinished)
            × (self.new ≡ record self.old { is_spent = true }) }
        ensures spent { self.old.is_spent ≡ true → (result ≡ Err FrameFault.Spent)
            × (self.new ≡ self.old) }
    {
        if self.is_spent {
            return Err(FrameFault::Spent);
        }
        if self.held.is_empty() {
            return Ok(());
        }
        self.is_spent = true;
        Err(FrameFault::Unfinished)
    }
}
