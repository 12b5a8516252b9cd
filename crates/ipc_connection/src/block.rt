//! The memory of a payload that comes in pieces.
ghost use Rattle.std.specs.Prelude.{◌≡◌, ℕ, true, ◌<◌, ◌≤◌, ◌+◌, ◌^◌, ◌++◌, ◌==◌, [], length, take, IsOk, OnErr, OnOk};
ghost use Rattle.ipc_base.specs.Memory.{ample_items};
ghost use Rattle.ipc_base.specs.Ports.{input_of};
ghost use Rattle.ipc_connection.specs.ReadOn.{Fails, ReadsInto};

use crate::blocks::Blocks;
use ipc_base::{Memory, PortFault, PortRead};
use std::alloc::{AllocError, Global};
use std::marker::Model;

/// A payload of which no more bytes than these are wanted is short: they are not read straight into
/// its memory, and it gets new memory.
pub(crate) const FEW: usize = 16_384;

/// The bytes of a payload that have come, and behind them room that was written before: it holds
/// zeros, or bytes of an older payload. Seen as the bytes that have come.
#[derive(Drop)]
pub(crate) struct Block {
    bytes: Vec<u8>,
    // So many of them have come.
    filled: usize,
}

impl Model for Block {
    ghost use Rattle.std.specs.Prelude.{ℕ, List, ◌≤◌, take, length};

    ghost Value = { List ℕ };

    ghost view = { λ b. take b.filled b.bytes.items };

    ghost invariant = { λ b. b.filled ≤ length b.bytes.items };
}

// Puts bytes behind the first ones of a list. Where there are no first ones, it gets its room at
// once.
fn append<M: Memory>(
    memory: M,
    list: &mut Vec<u8>,
    filled: usize,
    bytes: &[u8],
    wanted: usize,
) -> Result<(), AllocError>
    requires { filled ≤ length list.old.items }
    ensures ok { OnOk result (list.new.items ≡ take filled list.old.items ++ bytes.now) }
    ensures err { OnErr result (list.new.items ≡ take filled list.old.items) }
    ensures ample { M.is_ample → wanted ≤ ample_items → IsOk result }
{
    list.truncate(filled);
    if filled == 0 {
        memory.reserve(list, wanted)?;
    }
    memory.extend(list, bytes)
}

// Makes a list at least so long, by zeros. False where there is no memory for them.
fn make_room(list: &mut Vec<u8>, size: usize) -> bool
    ensures begins { (n : ℕ) → n ≤ length list.old.items
        → take n list.new.items ≡ take n list.old.items }
    ensures room { result ≡ true → size ≤ length list.new.items }
    ensures keeps { length list.old.items ≤ length list.new.items }
{
    list.len() >= size || list.resize(size, 0).is_ok()
}

impl Block {
    /// No bytes. Takes no memory.
    pub(crate) fn new(alloc: Global) -> Block
        ensures { result ≡ [] }
    {
        Block {
            bytes: Vec::new(alloc),
            filled: 0,
        }
    }

    /// How many bytes have come.
    pub(crate) fn len(&self) -> usize
        ensures { result ≡ length self.now }
    {
        self.filled
    }

    /// Whether none have come.
    pub(crate) fn is_empty(&self) -> bool
        ensures { result ≡ (length self.now == 0) }
    {
        self.filled == 0
    }

    /// The bytes that have come.
    pub(crate) fn as_slice(&self) -> &[u8]
        ensures { result.now ≡ self.now }
    {
        &self.bytes[..self.filled]
    }

    /// Where no bytes have come and many are wanted, takes up a block for them that was used
    /// before, if there is one.
    fn begin<B: Blocks>(&mut self, wanted: usize, blocks: &mut B)
        ensures { self.new ≡ self.old }
    {
        if self.filled == 0 && wanted > FEW {
            if let Some(bytes) = blocks.take(wanted) {
                self.bytes = bytes;
            }
        }
    }

    /// Puts bytes behind those that have come. The first ones bring room for as many as are wanted.
    pub(crate) fn store<M: Memory, B: Blocks>(
        &mut self,
        memory: M,
        bytes: &[u8],
        wanted: usize,
        blocks: &mut B,
    ) -> Result<(), AllocError>
        ensures ok { OnOk result (self.new ≡ self.old ++ bytes.now) }
        ensures err { OnErr result (self.new ≡ self.old) }
        ensures ample { M.is_ample → wanted ≤ ample_items → IsOk result }
    {
        self.begin(wanted, blocks);
        if bytes.len() <= self.bytes.len() - self.filled {
            self.bytes[self.filled..self.filled + bytes.len()].copy_from_slice(bytes);
        } else {
            append(memory, &mut self.bytes, self.filled, bytes, wanted)?;
        }
        self.filled += bytes.len();
        Ok(())
    }

    /// Reads from a port behind the bytes that have come, at most so many. None where there is no
    /// memory for them. Room that was written before is not written again.
    pub(crate) fn read_behind<P: PortRead>(
        &mut self,
        port: &mut P,
        most: usize,
    ) -> Option<Result<usize, PortFault>>
        requires some { 0 < most }
        requires few { length self.old + most < 2 ^ 32 }
        ensures read { ReadsInto (input_of (P.came port.old) (P.remaining port.old))
            (input_of (P.came port.new) (P.remaining port.new)) self.old self.new most result }
        ensures within { length self.new ≤ length self.old + most }
        ensures fails { Fails (input_of (P.came port.old) (P.remaining port.old))
            (input_of (P.came port.new) (P.remaining port.new))
            (P.failures port.old) (P.failures port.new) result }
    {
        let end = self.filled + most;
        if !make_room(&mut self.bytes, end) {
            return None;
        }
        let read = port.read(&mut self.bytes[self.filled..end]);
        if let Ok(count) = read {
            self.filled += count;
        }
        Some(read)
    }

    /// The bytes that have come, in their memory.
    pub(crate) fn into_bytes(self) -> Vec<u8>
        ensures { result.items ≡ self }
    {
        let Block { mut bytes, filled } = self;
        bytes.truncate(filled);
        bytes
    }
}
