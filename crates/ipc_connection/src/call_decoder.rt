ghost use Rattle.std.specs.Prelude.{◌≡◌, ℕ, List, [], true, false, Ok, Err, length};
ghost use Rattle.ipc_frame.specs.declared.frame.Frame.{Frame};
ghost use Rattle.ipc_connection.specs.Holding.{ForGone, FillsUp, FrameAt};
ghost use Rattle.ipc_base.specs.Ports.{input_of};
ghost use Rattle.ipc_connection.specs.ReadOn.{Fails, TakesOn};
ghost use Rattle.ipc_connection.specs.Taking.{Ends, Holds, IsUnfinished, Takes, Finishes};

use crate::block::FEW;
use crate::blocks::{Blocks, NoBlocks};
use crate::heard::Heard;
use crate::held::{Held, hear};
use crate::whole::bare_frame;
use ipc_base::{Memory, PortFault, PortRead};
use ipc_frame::{FrameFault, Judgement};
use std::alloc::Global;
use std::marker::Model;

// Takes bytes from the front of a piece up to the end of the frame that has begun: how many, and
// whether the frame is whole.
pub(crate) fn fill<M: Memory, B: Blocks>(
    memory: M,
    held: &mut Held,
    piece: &[u8],
    blocks: &mut B,
) -> Result<(usize, bool), FrameFault>
    requires { ForGone held.old (λ bytes. IsUnfinished bytes) }
    ensures fills { ForGone held.old (λ bytes. FillsUp bytes piece.now held.new result) }
    ensures rest { (used : ℕ) → result ≡ Ok (used, false)
        → ForGone held.new (λ bytes. IsUnfinished bytes) }
    ensures ample { M.is_ample → held.old.lost ≡ 0 → held.new.lost ≡ 0 }
{
    let mut used = 0;
    loop {
        match held.judge() {
            Judgement::Bad(fault) => return Err(fault),
            Judgement::Whole => return Ok((used, true)),
            Judgement::Short(wanted) => {
                let next = &piece[used..];
                if next.is_empty() {
                    return Ok((used, false));
                }
                let count = next.len().min(wanted);
                used += held.keep(memory, &next[..count], wanted, blocks);
            }
        }
    }
}

// The memory of long strings that were heard may be used again.
fn keep_strings<B: Blocks>(heard: &Heard, blocks: &mut B) {
    if let Heard::Call(call) = heard {
        if call.strings().size() > FEW as u64 {
            blocks.keep(call.strings());
        }
    }
}

/// Reads what clients send from a stream that comes in pieces of any size. It holds the bytes since
/// the last whole frame.
#[derive(Drop)]
pub struct CallDecoder {
    alloc: Global,
    held: Held,
    spent: bool,
}

impl Model for CallDecoder {
    ghost use Rattle.std.specs.Prelude.{◌≡◌, false};
    ghost use Rattle.ipc_connection.specs.Holding.{ForGone};
    ghost use Rattle.ipc_connection.specs.Taking.{Decoding, IsUnfinished};

    ghost Value = { Decoding };

    ghost view = { λ d. record { kept = d.held.bytes; lost = d.held.lost; spent = d.spent } };

    ghost invariant = { λ d. d.spent ≡ false → ForGone d.held (λ bytes. IsUnfinished bytes) };
}

impl CallDecoder {
    /// A decoder at the start of a stream. Takes no memory.
    pub fn new(alloc: Global) -> CallDecoder
        ensures { Holds result [] }
    {
        CallDecoder {
            alloc,
            held: Held::new(alloc),
            spent: false,
        }
    }

    /// Reads a piece up to the end of the first frame in it, and answers how many of its bytes were
    /// used and what the frame says. Without a whole frame it uses all of the piece and answers
    /// None.
    ///
    /// Err at the byte that shows it: F1 to F4 of a frame; when the frame is whole F12, then F5 to
    /// F8 of its items; F14 where there is no memory for its call, or was none for its payload.
    /// After an error it is F13 for good.
    pub fn take(&mut self, piece: &[u8]) -> Result<(usize, Option<Heard>), FrameFault>
        ensures taken { (bytes : List ℕ) → Holds self.old bytes
            → IsUnfinished bytes × Takes bytes piece.now self.new result }
        ensures spent { self.old.spent ≡ true → (result ≡ Err FrameFault.Spent)
            × (self.new ≡ self.old) }
    {
        self.take_in(piece, &mut NoBlocks)
    }

    /// As [`CallDecoder::take`]: a long payload is kept in a block that was used before, if there
    /// is one, and its strings are told to those that give blocks.
    pub fn take_in<B: Blocks>(
        &mut self,
        piece: &[u8],
        blocks: &mut B,
    ) -> Result<(usize, Option<Heard>), FrameFault>
        ensures taken { (bytes : List ℕ) → Holds self.old bytes
            → IsUnfinished bytes × Takes bytes piece.now self.new result }
        ensures spent { self.old.spent ≡ true → (result ≡ Err FrameFault.Spent)
            × (self.new ≡ self.old) }
    {
        if !self.spent && self.held.is_empty() {
            if let Some(size) = bare_frame(piece) {
                return self.hear_bare(&piece[..size]);
            }
        }
        self.take_part(piece, blocks)
    }

    /// Hears a whole frame without a payload, where nothing is held.
    fn hear_bare(&mut self, frame: &[u8]) -> Result<(usize, Option<Heard>), FrameFault>
        requires frame { (f : Frame) × FrameAt frame.now [] f }
        requires empty { Holds self.old [] }
        ensures { (f : Frame) → FrameAt frame.now [] f
            → Ends f (length frame.now) self.new result }
    {
        match hear(self.alloc, frame, Vec::new(self.alloc)) {
            Ok(heard) => Ok((frame.len(), Some(heard))),
            Err(fault) => {
                self.spent = true;
                Err(fault)
            }
        }
    }

    /// The same of any piece, by way of the bytes that are held. Few frames come so, and its frame
    /// is large: it is never inlined.
    #[inline(never)]
    fn take_part<B: Blocks>(
        &mut self,
        piece: &[u8],
        blocks: &mut B,
    ) -> Result<(usize, Option<Heard>), FrameFault>
        ensures taken { (bytes : List ℕ) → Holds self.old bytes
            → IsUnfinished bytes × Takes bytes piece.now self.new result }
        ensures spent { self.old.spent ≡ true → (result ≡ Err FrameFault.Spent)
            × (self.new ≡ self.old) }
    {
        if self.spent {
            return Err(FrameFault::Spent);
        }
        let found = match fill(self.alloc, &mut self.held, piece, blocks) {
            Ok(found) => found,
            Err(fault) => {
                self.spent = true;
                return Err(fault);
            }
        };
        if !found.1 {
            return Ok((found.0, None));
        }
        match self.held.hear(self.alloc) {
            Ok(heard) => {
                self.held.clear(self.alloc);
                keep_strings(&heard, blocks);
                Ok((found.0, Some(heard)))
            }
            Err(fault) => {
                self.spent = true;
                Err(fault)
            }
        }
    }

    /// Reads on from a port, straight into the memory of a long payload of which some has come. It
    /// reads less than the rest of the frame, so no frame ends in what it reads; none only at the
    /// end of the input. None where the next bytes are to be taken as a piece: then nothing is
    /// read.
    ///
    /// # Errors
    ///
    /// F10, F11: as the port says, and nothing was read.
    pub fn read_on<P: PortRead>(&mut self, port: &mut P) -> Option<Result<usize, PortFault>>
        ensures taken { TakesOn (input_of (P.came port.old) (P.remaining port.old))
            (input_of (P.came port.new) (P.remaining port.new)) self.old self.new result }
        ensures fails { Fails (input_of (P.came port.old) (P.remaining port.old))
            (input_of (P.came port.new) (P.remaining port.new))
            (P.failures port.old) (P.failures port.new) result }
    {
        if self.spent {
            return None;
        }
        self.held.read_on(port)
    }

    /// The end of the input. Err: F9 inside a frame, F13 after an error.
    pub fn finish(&mut self) -> Result<(), FrameFault>
        ensures held { (bytes : List ℕ) → Holds self.old bytes
            → Finishes bytes self.old self.new result }
        ensures spent { self.old.spent ≡ true → (result ≡ Err FrameFault.Spent)
            × (self.new ≡ self.old) }
    {
        if self.spent {
            return Err(FrameFault::Spent);
        }
        if self.held.is_empty() {
            return Ok(());
        }
        self.spent = true;
        Err(FrameFault::Unfinished)
    }
}
