ghost use Rattle.std.specs.Prelude.{◌≡◌, ℕ, ◌<◌, ◌≤◌, List, [], ◌∷◌, ◌++◌, length, sum_by, IfOk, IsOk};
ghost use Rattle.std.specs.Prelude.{OnOk, OnErr, slice_get, option_copied};
ghost use Rattle.std.specs.List.{concat};
ghost use Rattle.ipc_base.specs.Memory.{ample_items};
ghost use Rattle.ipc_items.specs.Rows.{AreEnds, grown, opened, place, rows};

use ipc_base::Memory;
use std::alloc::AllocError;
use std::marker::Model;

/// Lists kept end to end in one vector, seen as the list of them.
#[derive(Drop)]
pub(crate) struct Rows<T> {
    items: Vec<T>,
    // Where each row ends in `items`.
    ends: Vec<usize>,
}

impl<T> Model for Rows<T> {
    ghost use Rattle.std.specs.Prelude.{List, length};
    ghost use Rattle.ipc_items.specs.Rows.{rows, AreEnds};

    ghost Value = { List (List T) };

    ghost view = { λ r. rows 0 r.ends.items r.items.items };

    ghost invariant = { λ r. AreEnds 0 r.ends.items (length r.items.items) };
}

impl<T> Rows<T> {
    pub(crate) fn new<M: Memory>(memory: M) -> Self
        ensures { result ≡ [] }
    {
        Rows {
            items: Vec::new(memory.global()),
            ends: Vec::new(memory.global()),
        }
    }

    // The rows that end at these places.
    pub(crate) fn of_parts(items: Vec<T>, ends: Vec<usize>) -> Self
        requires { AreEnds 0 ends.items (length items.items) }
        ensures { result ≡ rows 0 ends.items items.items }
    {
        Rows { items, ends }
    }

    // No rows, from the same allocator.
    pub(crate) fn none(&self) -> Self
        ensures { result ≡ [] }
    {
        Rows::new(*self.items.allocator())
    }

    pub(crate) fn len(&self) -> usize
        ensures { result ≡ length self.now }
    {
        self.ends.len()
    }

    // How many items all rows have.
    pub(crate) fn total(&self) -> usize
        ensures { result ≡ sum_by (λ r. length r) self.now }
    {
        self.items.len()
    }

    // For how many items there is room.
    pub(crate) fn room(&self) -> usize {
        self.items.capacity()
    }

    pub(crate) fn row(&self, k: usize) -> &[T]
        requires { k < length self.now }
        ensures { slice_get self.now k ≡ Some result.now }
    {
        &self.items[place(&self.ends, k)..place(&self.ends, k + 1)]
    }

    pub(crate) fn get(&self, k: usize) -> Option<&[T]>
        ensures { option_copied result ≡ slice_get self.now k }
    {
        if k < self.len() {
            Some(self.row(k))
        } else {
            None
        }
    }
}

impl Rows<u8> {
    // The items of all rows, in their memory.
    pub(crate) fn into_items(self) -> Vec<u8>
        ensures { result.items ≡ concat self }
    {
        let Rows { items, ends } = self;
        drop(ends);
        items
    }
}

// Where row k begins, and at their number where the last one ends.
fn place(ends: &[usize], k: usize) -> usize
    requires { k ≤ length ends.now }
    ensures { result ≡ place 0 ends.now k }
{
    if k == 0 { 0 } else { ends[k - 1] }
}

impl<T: Copy> Rows<T> {
    // No rows, with room for as many rows and as many items in all of them.
    pub(crate) fn with_capacity<M: Memory>(
        memory: M,
        rows: usize,
        items: usize,
    ) -> Result<Self, AllocError>
        ensures none { IfOk result (λ r. r ≡ []) }
        ensures ample { M.is_ample → rows ≤ ample_items → items ≤ ample_items → IsOk result }
    {
        Ok(Rows {
            items: memory.with_capacity(items)?,
            ends: memory.with_capacity(rows)?,
        })
    }

    pub(crate) fn push<M: Memory>(&mut self, memory: M, row: &[T]) -> Result<(), AllocError>
        ensures ok { OnOk result (self.new ≡ self.old ++ row.now ∷ []) }
        ensures err { OnErr result (self.new ≡ self.old) }
        ensures ample { M.is_ample → IsOk result }
    {
        memory.reserve(&mut self.ends, 1)?;
        memory.extend(&mut self.items, row)?;
        self.ends.push_reserved(self.items.len());
        Ok(())
    }

    // Begins a row, unless the last one goes on.
    pub(crate) fn begin<M: Memory>(&mut self, memory: M, goes_on: bool) -> Result<(), AllocError>
        ensures ok { OnOk result (self.new ≡ opened goes_on self.old) }
        ensures ample { M.is_ample → IsOk result }
    {
        if goes_on {
            Ok(())
        } else {
            self.push(memory, &[])
        }
    }

    // Appends to the last row.
    pub(crate) fn extend_last<M: Memory>(
        &mut self,
        memory: M,
        items: &[T],
    ) -> Result<(), AllocError>
        requires { 0 < length self.old }
        ensures ok { OnOk result (self.new ≡ grown self.old items.now) }
        ensures err { OnErr result (self.new ≡ self.old) }
        ensures ample { M.is_ample → IsOk result }
    {
        memory.extend(&mut self.items, items)?;
        let last = self.ends.len() - 1;
        self.ends[last] = self.items.len();
        Ok(())
    }

    pub(crate) fn clear(&mut self)
        ensures { self.new ≡ [] }
    {
        self.ends.clear();
        self.items.clear();
    }

    pub(crate) fn copy<M: Memory>(&self, memory: M) -> Result<Self, AllocError>
        ensures same { IfOk result (λ r. r ≡ self.now) }
        ensures ample { M.is_ample → IsOk result }
    {
        Ok(Rows {
            items: ipc_base::from_slice(memory, &self.items)?,
            ends: ipc_base::from_slice(memory, &self.ends)?,
        })
    }
}
