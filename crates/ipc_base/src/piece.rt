//! The bytes of one read, until they are used.
ghost use Rattle.std.specs.Prelude.{◌≡◌, ◌≤◌, ◌<◌, [], length, drop, OnOk, OnErr};
ghost use Rattle.std.specs.Io.KnownBytes.{IsAtEnd, Keeps, prepend_known};
ghost use Rattle.ipc_base.specs.Ports.{most_left};

use crate::fault::PortFault;
use crate::limits::PIECE_SIZE;
use crate::port::PortRead;
use std::marker::Model;

/// The bytes of a read that were not used yet, seen as their list.
#[derive(Drop)]
pub struct PieceBuffer {
    bytes: [u8; PIECE_SIZE],
    start: usize,
    end: usize,
}

impl Model for PieceBuffer {
    ghost use Rattle.std.specs.Prelude.{ℕ, ◌≤◌, ◌-◌, List, take, drop};
    ghost use Rattle.ipc_base.specs.Ports.{piece_size};

    ghost Value = { List ℕ };

    ghost view = { λ held. take (held.end - held.start) (drop held.start held.bytes) };

    ghost invariant = { λ held. (held.start ≤ held.end) × (held.end ≤ piece_size) };
}

impl PieceBuffer {
    /// No bytes.
    pub fn new() -> PieceBuffer
        ensures { result ≡ [] }
    {
        PieceBuffer {
            bytes: [0; PIECE_SIZE],
            start: 0,
            end: 0,
        }
    }

    /// The bytes that were not used yet.
    pub fn bytes(&self) -> &[u8]
        ensures { result.now ≡ self.now }
    {
        &self.bytes[self.start..self.end]
    }

    /// Reads a piece where no byte is left; none then comes only at the end of the input.
    ///
    /// # Errors
    ///
    /// F10, F11: the count of failures rose in this call, and no byte was taken.
    pub fn fill<P: PortRead>(&mut self, port: &mut P) -> Result<(), PortFault>
        ensures bytes { Keeps (prepend_known self.old (P.remaining port.old))
            (prepend_known self.new (P.remaining port.new)) }
        ensures end { OnOk result (length self.new ≡ 0 → IsAtEnd (P.remaining port.new)) }
        ensures err { OnErr result (length self.new ≡ 0) }
        ensures failed { OnErr result (P.failures port.old < P.failures port.new) }
        ensures kept { OnOk result (P.failures port.new ≡ P.failures port.old) }
        ensures fewer { OnOk result (0 < length self.new
            → most_left (P.reads_left port.new) self.new
            ≤ most_left (P.reads_left port.old) self.old) }
    {
        if self.start < self.end {
            return Ok(());
        }
        self.start = 0;
        self.end = 0;
        self.end = port.read(&mut self.bytes)?;
        Ok(())
    }

    /// Uses so many of the bytes.
    pub fn consume(&mut self, count: usize)
        requires within { count ≤ length self.old }
        ensures { self.new ≡ drop count self.old }
    {
        self.start += count;
    }
}
