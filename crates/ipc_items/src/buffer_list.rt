ghost use Rattle.std.specs.Prelude.{◌≡◌, ◌==◌, ◌↔◌, IsTrue, ℕ, ◌<◌, ◌^◌, ◌≤◌, List, [], ◌∷◌, ◌++◌};
ghost use Rattle.std.specs.Prelude.{length, sum_by, if◌then◌else◌, IfOk, IfErr, IsOk, IsOkUnless};
ghost use Rattle.std.specs.Prelude.{OnErr, slice_get, option_copied};
ghost use Rattle.std.specs.Option.{SomeIff, option_map_or};
ghost use Rattle.ipc_words.specs.Limits.{max_buffer_words};
ghost use Rattle.ipc_base.specs.Memory.{ample_items};
ghost use Rattle.ipc_items.specs.Buffers.{buffers_of, capacity, IsBuffer, AreBuffers};
ghost use Rattle.ipc_items.specs.StringItem.{buffer_reading};
ghost use Rattle.ipc_items.specs.Pieces.{first_pointer};

use crate::item_fault::ItemFault;
use crate::iter::Iter;
use crate::reading::{buffer_check, buffer_rows};
use crate::rows::Rows;
use ipc_base::Memory;
use ipc_words::limits::{MAX_SUBSTRINGS, SUBSTRING_LENGTH_LIMIT};
use std::alloc::AllocError;
use std::marker::Model;

/// A substring of a buffer string: how many bytes it holds, and the pointer that is handed back
/// with them.
#[derive(Clone, Copy, Debug, PartialEq, Eq)]
pub struct Substring {
    /// In bytes.
    pub length: u64,
    /// Any number.
    pub pointer: u64,
}

/// The buffer strings of a call, seen as the list of their substrings.
///
/// Each has a substring, and there are at most [`MAX_SUBSTRINGS`] together, each of a length below
/// [`SUBSTRING_LENGTH_LIMIT`].
#[derive(Drop)]
pub struct BufferList {
    rows: Rows<Substring>,
}

impl Model for BufferList {
    ghost use Rattle.std.specs.Prelude.{List};
    ghost use Rattle.ipc_items.specs.declared.buffer_list.Substring.{Substring};
    ghost use Rattle.ipc_items.specs.Buffers.{AreBuffers};

    ghost Value = { List (List Substring) };

    ghost view = { λ b. b.rows };

    ghost invariant = { λ b. AreBuffers b.rows };
}

// Whether a buffer string has a substring, and each length is below the limit.
fn is_buffer(buffer: &[Substring]) -> bool
    ensures { IsTrue result ↔ IsBuffer buffer.now }
{
    !buffer.is_empty()
        && buffer
            .iter()
            .all(|part| part.length < SUBSTRING_LENGTH_LIMIT)
}

// How many bytes a buffer string holds.
fn capacity(buffer: &[Substring]) -> u64
    requires { capacity buffer.now < 2 ^ 64 }
    ensures { result ≡ capacity buffer.now }
{
    buffer.iter().map(|part| part.length).sum()
}

impl BufferList {
    /// No buffer strings. Takes no memory.
    pub fn new<M: Memory>(memory: M) -> Self
        ensures { result ≡ [] }
    {
        BufferList {
            rows: Rows::new(memory),
        }
    }

    /// No buffer strings, with room for as many buffer strings and as many substrings in all of
    /// them.
    pub fn with_capacity<M: Memory>(
        memory: M,
        buffers: usize,
        substrings: usize,
    ) -> Result<Self, AllocError>
        ensures none { IfOk result (λ list. list ≡ []) }
        ensures ample { M.is_ample → buffers ≤ ample_items
            → substrings ≤ ample_items → IsOk result }
    {
        Ok(BufferList {
            rows: Rows::with_capacity(memory, buffers, substrings)?,
        })
    }

    /// The list of these buffer strings, or `None` past the limits or where one has no substring.
    pub fn of<M: Memory>(
        memory: M,
        buffers: Vec<Vec<Substring>>,
    ) -> Result<Option<Self>, AllocError>
        ensures list { IfOk result (λ list.
            SomeIff list (AreBuffers (buffers_of buffers.items)) (buffers_of buffers.items)) }
        ensures ample { M.is_ample → IsOk result }
    {
        let size: u128 = buffers.iter().map(|buffer| buffer.len() as u128).sum();
        if size > MAX_SUBSTRINGS as u128 {
            return Ok(None);
        }
        let mut list = BufferList::with_capacity(memory, MAX_SUBSTRINGS, size as usize)?;
        for buffer in &buffers {
            if !list.push_buffer(memory, buffer)? {
                return Ok(None);
            }
        }
        Ok(Some(list))
    }

    /// The buffer strings that buffer items spell, or the first fault. There are at most as many
    /// words as a frame has for them.
    pub fn read<M: Memory>(memory: M, words: &[u64]) -> Result<Self, ItemFault>
        requires { length words.now ≤ max_buffer_words }
        ensures ok { IfOk result (λ list. buffer_reading words.now ≡ Ok list) }
        ensures fault { IfErr (buffer_reading words.now) (λ fault. result ≡ Err fault) }
        ensures memory { IsOk (buffer_reading words.now)
            → IsOkUnless result ItemFault.NoMemory }
        ensures ample { M.is_ample → IsOk (buffer_reading words.now) → IsOk result }
    {
        buffer_check(words)?;
        let rows = buffer_rows(memory, words)?;
        Ok(BufferList { rows })
    }

    /// Adds a buffer string, and says whether it is within the limits: past them, the list stays as
    /// it was.
    pub fn push_buffer<M: Memory>(
        &mut self,
        memory: M,
        buffer: &[Substring],
    ) -> Result<bool, AllocError>
        ensures within { IfOk result (λ fits.
            IsTrue fits ↔ AreBuffers (self.old ++ buffer.now ∷ [])) }
        ensures ok { IfOk result (λ fits.
            self.new ≡ (if fits then self.old ++ buffer.now ∷ [] else self.old)) }
        ensures err { OnErr result (self.new ≡ self.old) }
        ensures ample { M.is_ample → IsOk result }
    {
        if !is_buffer(buffer) || buffer.len() > MAX_SUBSTRINGS - self.rows.total() {
            return Ok(false);
        }
        self.rows.push(memory, buffer)?;
        Ok(true)
    }

    /// Removes all buffer strings.
    pub fn clear(&mut self)
        ensures { self.new ≡ [] }
    {
        self.rows.clear();
    }

    /// A list of the same buffer strings.
    pub fn copy<M: Memory>(&self, memory: M) -> Result<Self, AllocError>
        ensures same { IfOk result (λ list. list ≡ self.now) }
        ensures ample { M.is_ample → IsOk result }
    {
        Ok(BufferList {
            rows: self.rows.copy(memory)?,
        })
    }

    /// How many buffer strings there are.
    pub fn len(&self) -> usize
        ensures count { result ≡ length self.now }
        ensures within { AreBuffers self.now }
    {
        self.rows.len()
    }

    /// Whether there is no buffer string.
    pub fn is_empty(&self) -> bool
        ensures { result ≡ (length self.now == 0) }
    {
        self.rows.len() == 0
    }

    /// The buffer strings in order.
    pub fn iter(&self) -> Iter<'_, Substring>
        ensures { result ≡ self.now }
    {
        Iter::new(&self.rows)
    }

    /// The substrings of buffer string k.
    pub fn get(&self, k: usize) -> Option<&[Substring]>
        ensures { option_copied result ≡ slice_get self.now k }
    {
        self.rows.get(k)
    }

    /// The first pointer of buffer string k, 0 where there is none.
    pub fn first_pointer(&self, k: usize) -> u64
        ensures { result ≡ option_map_or first_pointer (slice_get self.now k) 0 }
    {
        match self.rows.get(k) {
            Some([first, ..]) => first.pointer,
            _ => 0,
        }
    }

    /// How many bytes buffer string k holds, 0 where there is none.
    pub fn capacity(&self, k: usize) -> u64
        ensures { result ≡ option_map_or capacity (slice_get self.now k) 0 }
    {
        match self.rows.get(k) {
            Some(buffer) => capacity(buffer),
            None => 0,
        }
    }
}
