ghost use Rattle.std.specs.Prelude.{◌≡◌, ◌+◌, ◌<◌, ◌≤◌, ◌∷◌, ◌++◌, [], None, length, true, IfOk, IsOk, OnOk, OnErr};
ghost use Rattle.std.specs.List.{list_any, slice_range};
ghost use Rattle.ipc_base.specs.Memory.{ample_items};
ghost use Rattle.ipc_items.specs.Rows.{grown, opened};
ghost use Rattle.ipc_items.specs.ItemWords.{items_of, length_of, strings_by};
ghost use Rattle.ipc_items.specs.ItemFault.{is_outside, string_fault};
ghost use Rattle.ipc_items.specs.StringItem.{bytes_of};

use crate::item::{Item, split_item};
use crate::reading::string_rows;
use crate::rows::Rows;
use ipc_base::Memory;
use std::alloc::AllocError;
use std::marker::Model;

/// Lists of bytes that stand end to end at the front of a payload, where they are not copied.
#[derive(Drop)]
struct Cuts {
    payload: Vec<u8>,
    // Where each list ends in the payload.
    ends: Vec<usize>,
    // How many bytes of the payload all lists take.
    len: usize,
}

impl Model for Cuts {
    ghost use Rattle.std.specs.Prelude.{◌≤◌, length, take};
    ghost use Rattle.ipc_items.specs.Cuts.{CutParts};
    ghost use Rattle.ipc_items.specs.Rows.{rows, AreEnds};

    ghost Value = { CutParts };

    ghost view = { λ c. record { rows = rows 0 c.ends.items (take c.len c.payload.items); payload = c.payload.items } };

    ghost invariant = { λ c. (c.len ≤ length c.payload.items) × AreEnds 0 c.ends.items (length (take c.len c.payload.items)) };
}

impl Cuts {
    // No lists, with room for as many.
    fn new<M: Memory>(memory: M, payload: Vec<u8>, rows: usize) -> Result<Self, AllocError>
        ensures cuts { IfOk result (λ cuts. cuts ≡ record { rows = []; payload = payload.items }) }
        ensures ample { M.is_ample → rows ≤ ample_items → IsOk result }
    {
        Ok(Cuts {
            payload,
            ends: memory.with_capacity(rows)?,
            len: 0,
        })
    }

    // Begins a list, unless the last one goes on.
    fn begin<M: Memory>(&mut self, memory: M, goes_on: bool) -> Result<(), AllocError>
        ensures rows { OnOk result (self.new.rows ≡ opened goes_on self.old.rows) }
        ensures payload { self.new.payload ≡ self.old.payload }
        ensures ample { M.is_ample → IsOk result }
    {
        if !goes_on {
            memory.reserve(&mut self.ends, 1)?;
            self.ends.push_reserved(self.len);
        }
        Ok(())
    }

    // Appends so many bytes of the payload from a place on to the last list, if they are the next
    // ones.
    fn extend_last(&mut self, start: usize, count: usize) -> bool
        requires { 0 < length self.old.rows }
        ensures rows { result ≡ true → self.new.rows
            ≡ grown self.old.rows (slice_range self.old.payload start (start + count)) }
        ensures payload { self.new.payload ≡ self.old.payload }
    {
        if start != self.len || count > self.payload.len() - self.len {
            return false;
        }
        self.len += count;
        let last = self.ends.len() - 1;
        self.ends[last] = self.len;
        true
    }

    // Appends the bytes that an item names to the last list, if they are the next ones.
    fn append(&mut self, item: &Item<'_>) -> bool
        requires some { 0 < length self.old.rows }
        ensures rows { result ≡ true → self.new.rows
            ≡ grown self.old.rows (bytes_of self.old.payload item.now) }
        ensures payload { self.new.payload ≡ self.old.payload }
    {
        let count = item.length() as usize;
        for pointer in item.pointers() {
            if !self.extend_last(*pointer as usize, count) {
                return false;
            }
        }
        true
    }

    // Cuts the strings of string items, if they stand end to end in the payload.
    fn cut<M: Memory>(&mut self, memory: M, words: &[u64]) -> Result<bool, AllocError>
        requires { self.old.rows ≡ [] }
        ensures rows { IfOk result (λ whole. whole ≡ true
            → self.new.rows ≡ strings_by (bytes_of self.old.payload) (items_of words.now)) }
        ensures payload { self.new.payload ≡ self.old.payload }
        ensures ample { M.is_ample → IsOk result }
    {
        let mut goes_on = false;
        let mut rest = words;
        while let Some((item, after)) = split_item(rest) {
            self.begin(memory, goes_on)?;
            if !self.append(&item) {
                return Ok(false);
            }
            goes_on = item.goes_on();
            rest = after;
        }
        Ok(true)
    }

    // The lists, in the memory of the payload.
    fn into_rows(self) -> Rows<u8>
        ensures { result ≡ self.rows }
    {
        let Cuts {
            mut payload,
            ends,
            len,
        } = self;
        payload.truncate(len);
        Rows::of_parts(payload, ends)
    }
}

// The strings of string items that have no fault. Where they are the payload, end to end, they stay
// in its memory; else they are copied, with room for their bytes. So no list holds much more memory
// than its strings need.
pub(crate) fn cut_rows<M: Memory>(
    memory: M,
    words: &[u64],
    payload: Vec<u8>,
    bytes: usize,
) -> Result<Rows<u8>, AllocError>
    requires { string_fault (length payload.items) 0 (items_of words.now) ≡ None }
    ensures rows { IfOk result (λ rows. rows ≡ strings_by (bytes_of payload.items)
        (items_of words.now)) }
    ensures ample { M.is_ample → length words.now ≤ ample_items
        → bytes ≤ ample_items → IsOk result }
{
    let is_all = bytes == payload.len();
    let mut cuts = Cuts::new(memory, payload, words.len() / 2)?;
    if is_all && cuts.cut(memory, words)? {
        return Ok(cuts.into_rows());
    }
    string_rows(memory, words, &cuts.payload, bytes)
}
