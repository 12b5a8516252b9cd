ghost use Rattle.std.specs.Prelude.{◌≡◌, ◌==◌, ◌↔◌, IsTrue, ℕ, ◌*◌, ◌≤◌, List, [], ◌∷◌, ◌++◌};
ghost use Rattle.std.specs.Prelude.{length, if◌then◌else◌, IfOk, IfErr, IsOk, IsOkUnless, IfSome};
ghost use Rattle.std.specs.Prelude.{OnErr, slice_get, option_copied};
ghost use Rattle.std.specs.List.{concat};
ghost use Rattle.std.specs.Option.{SomeIff, option_map_or};
ghost use Rattle.ipc_words.specs.Limits.{max_message_words, max_string_bytes};
ghost use Rattle.ipc_base.specs.Memory.{ample_items};
ghost use Rattle.ipc_items.specs.Strings.{strings_of, size_of, AreStrings};
ghost use Rattle.ipc_items.specs.StringItem.{string_reading};
ghost use Rattle.ipc_items.specs.Fit.{overflow_offset, accepted};

use crate::buffer_list::BufferList;
use crate::cutting::cut_rows;
use crate::fitting::overflow;
use crate::item_fault::ItemFault;
use crate::iter::Iter;
use crate::kept::Kept;
use crate::reading::{string_rows, string_size};
use crate::rows::Rows;
use ipc_base::Memory;
use ipc_words::limits::{MAX_STRING_BYTES, MAX_STRINGS};
use std::alloc::AllocError;
use std::marker::Model;

/// The strings of a message, seen as the list of their bytes.
///
/// There are at most [`MAX_STRINGS`], of at most [`MAX_STRING_BYTES`] together.
#[derive(Drop)]
pub struct StringList {
    rows: Kept<u8>,
}

impl Model for StringList {
    ghost Value = { List (List ℕ) };

    ghost view = { λ s. s.rows };

    ghost invariant = { λ s. AreStrings s.rows };
}

impl StringList {
    /// No strings. Takes no memory.
    pub fn new<M: Memory>(memory: M) -> Self
        ensures { result ≡ [] }
    {
        StringList {
            rows: Kept::sole(Rows::new(memory)),
        }
    }

    /// No strings, with room for as many strings and as many bytes in all of them.
    pub fn with_capacity<M: Memory>(
        memory: M,
        strings: usize,
        bytes: usize,
    ) -> Result<Self, AllocError>
        ensures none { IfOk result (λ list. list ≡ []) }
        ensures ample { M.is_ample → strings ≤ ample_items → bytes ≤ ample_items → IsOk result }
    {
        Ok(StringList {
            rows: Kept::sole(Rows::with_capacity(memory, strings, bytes)?),
        })
    }

    /// The list of these strings, or `None` past the limits.
    pub fn of<M: Memory>(memory: M, strings: Vec<Vec<u8>>) -> Result<Option<Self>, AllocError>
        ensures list { IfOk result (λ list.
            SomeIff list (AreStrings (strings_of strings.items)) (strings_of strings.items)) }
        ensures ample { M.is_ample → IsOk result }
    {
        let size: u128 = strings.iter().map(|string| string.len() as u128).sum();
        if strings.len() > MAX_STRINGS || size > MAX_STRING_BYTES as u128 {
            return Ok(None);
        }
        let mut rows = Rows::with_capacity(memory, strings.len(), size as usize)?;
        for string in &strings {
            rows.push(memory, string)?;
        }
        Ok(Some(StringList {
            rows: Kept::sole(rows),
        }))
    }

    /// The strings that string items spell over a payload, or the first fault. There are at most as
    /// many words as a message has.
    pub fn read<M: Memory>(memory: M, words: &[u64], payload: &[u8]) -> Result<Self, ItemFault>
        requires { length words.now ≤ max_message_words }
        ensures ok { IfOk result (λ list. string_reading words.now payload.now ≡ Ok list) }
        ensures few { IfOk result (λ list. 2 * length list ≤ length words.now) }
        ensures fault { IfErr (string_reading words.now payload.now) (λ fault. result ≡ Err fault) }
        ensures memory { IsOk (string_reading words.now payload.now)
            → IsOkUnless result ItemFault.NoMemory }
        ensures ample { M.is_ample → IsOk (string_reading words.now payload.now) → IsOk result }
    {
        let bytes = string_size(words, payload.len())?;
        let rows = string_rows(memory, words, payload, bytes)?;
        Ok(StringList {
            rows: Kept::shared(memory, rows),
        })
    }

    /// As [`StringList::read`], of a payload that is given away: where its strings are the whole of
    /// it, one behind the other, they stay in its memory.
    pub fn cut<M: Memory>(memory: M, words: &[u64], payload: Vec<u8>) -> Result<Self, ItemFault>
        requires { length words.now ≤ max_message_words }
        ensures ok { IfOk result (λ list. string_reading words.now payload.items ≡ Ok list) }
        ensures few { IfOk result (λ list. 2 * length list ≤ length words.now) }
        ensures fault { IfErr (string_reading words.now payload.items)
            (λ fault. result ≡ Err fault) }
        ensures memory { IsOk (string_reading words.now payload.items)
            → IsOkUnless result ItemFault.NoMemory }
        ensures ample { M.is_ample → IsOk (string_reading words.now payload.items) → IsOk result }
    {
        let bytes = string_size(words, payload.len())?;
        let rows = cut_rows(memory, words, payload, bytes)?;
        Ok(StringList {
            rows: Kept::shared(memory, rows),
        })
    }

    /// Adds a string, and says whether it is within the limits: past them, the list stays as it
    /// was.
    pub fn push<M: Memory>(&mut self, memory: M, string: &[u8]) -> Result<bool, AllocError>
        ensures within { IfOk result (λ fits.
            IsTrue fits ↔ AreStrings (self.old ++ string.now ∷ [])) }
        ensures ok { IfOk result (λ fits.
            self.new ≡ (if fits then self.old ++ string.now ∷ [] else self.old)) }
        ensures err { OnErr result (self.new ≡ self.old) }
        ensures ample { M.is_ample → IsOk result }
    {
        if self.rows.len() >= MAX_STRINGS || string.len() > MAX_STRING_BYTES - self.rows.total() {
            return Ok(false);
        }
        self.rows.push(memory, string)?;
        Ok(true)
    }

    /// Removes all strings.
    pub fn clear(&mut self)
        ensures { self.new ≡ [] }
    {
        self.rows.clear();
    }

    /// A list of the same strings. Takes no memory where they were read from a payload and the
    /// memory to share them was there.
    pub fn copy<M: Memory>(&self, memory: M) -> Result<Self, AllocError>
        ensures same { IfOk result (λ list. list ≡ self.now) }
        ensures ample { M.is_ample → IsOk result }
    {
        Ok(StringList {
            rows: self.rows.copy(memory)?,
        })
    }

    /// One more owner of the list. Takes no memory. None where the list has one owner by itself.
    pub fn share(&self) -> Option<Self>
        ensures { IfSome result (λ list. list ≡ self.now) }
    {
        Some(StringList {
            rows: self.rows.share()?,
        })
    }

    /// The memory of the strings, which stand in it one behind the other. Where somebody else has
    /// the list, it comes back.
    pub fn into_block(self) -> Result<Vec<u8>, Self>
        ensures ok { IfOk result (λ block. block.items ≡ concat self) }
        ensures err { IfErr result (λ list. list ≡ self) }
    {
        match self.rows.into_items() {
            Ok(block) => Ok(block),
            Err(rows) => Err(StringList { rows }),
        }
    }

    /// As [`StringList::into_block`], where it has at least so many bytes, and room for at most
    /// twice as many.
    #[tactic(auto, using(crate::proofs::RowLemmas::length_concat))]
    pub(crate) fn into_block_for(self, wanted: usize) -> Result<Vec<u8>, Self>
        ensures ok { IfOk result (λ block. wanted ≤ length block.items) }
        ensures err { IfErr result (λ list. list ≡ self) }
    {
        let rows = self.rows.rows();
        if rows.total() < wanted || rows.room() / 2 > wanted {
            return Err(self);
        }
        match self.into_block() {
            Ok(block) => Ok(block),
            Err(list) => Err(list),
        }
    }

    /// The sum of the lengths of the strings.
    pub fn size(&self) -> u64
        ensures sum { result ≡ size_of self.now }
        ensures bound { size_of self.now ≤ max_string_bytes }
    {
        self.rows.total() as u64
    }

    /// How many strings there are.
    pub fn len(&self) -> usize
        ensures count { result ≡ length self.now }
        ensures within { AreStrings self.now }
    {
        self.rows.len()
    }

    /// Whether there is no string.
    pub fn is_empty(&self) -> bool
        ensures { result ≡ (length self.now == 0) }
    {
        self.rows.len() == 0
    }

    /// The strings in order.
    pub fn iter(&self) -> Iter<'_, u8>
        ensures { result ≡ self.now }
    {
        Iter::new(self.rows.rows())
    }

    /// The bytes of string k.
    pub fn get(&self, k: usize) -> Option<&[u8]>
        ensures { option_copied result ≡ slice_get self.now k }
    {
        self.rows.get(k)
    }

    /// The length of string k, 0 where there is none.
    pub fn string_len(&self, k: usize) -> usize
        ensures { result ≡ option_map_or (λ string. length string) (slice_get self.now k) 0 }
    {
        match self.rows.get(k) {
            Some(string) => string.len(),
            None => 0,
        }
    }

    /// Where not every string fits its buffer, the sum of the lengths of those before the first
    /// that doesn't.
    pub fn overflow(&self, buffers: Option<&BufferList>) -> Option<u64>
        ensures exact { result ≡ overflow_offset self.now (accepted (option_copied buffers.entry)) }
        ensures within { IfSome result (λ offset. offset ≤ size_of self.now) }
    {
        match buffers {
            Some(buffers) => overflow(self, buffers),
            None if self.is_empty() => None,
            None => Some(0),
        }
    }
}
