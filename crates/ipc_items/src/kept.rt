ghost use Rattle.std.specs.Prelude.{◌≡◌, ◌∷◌, ◌++◌, [], length, sum_by, slice_get, option_copied, IfOk, IfErr, IfSome, IsOk, OnOk, OnErr};
ghost use Rattle.std.specs.List.{concat};

use crate::rows::Rows;
use ipc_base::Memory;
use std::alloc::AllocError;
use std::marker::Model;
use std::sync::Arc;

/// Who has the rows.
#[derive(Drop)]
enum Owned<T> {
    Sole(Rows<T>),
    Shared(Arc<Rows<T>>),
}

/// Rows of one owner, or of several; seen as the list of them.
#[derive(Drop)]
pub(crate) struct Kept<T> {
    owned: Owned<T>,
}

impl<T> Model for Kept<T> {
    ghost use Rattle.std.specs.Prelude.{List};
    ghost use Rattle.ipc_items.specs.Shared.{owned_rows};

    ghost Value = { List (List T) };

    ghost view = { λ k. owned_rows k.owned };
}

impl<T> Kept<T> {
    pub(crate) fn sole(rows: Rows<T>) -> Self
        ensures { result ≡ rows }
    {
        Kept {
            owned: Owned::Sole(rows),
        }
    }

    pub(crate) fn len(&self) -> usize
        ensures { result ≡ length self.now }
    {
        self.rows().len()
    }

    // How many items all rows have.
    pub(crate) fn total(&self) -> usize
        ensures { result ≡ sum_by (λ r. length r) self.now }
    {
        self.rows().total()
    }

    pub(crate) fn get(&self, k: usize) -> Option<&[T]>
        ensures { option_copied result ≡ slice_get self.now k }
    {
        self.rows().get(k)
    }

    // The rows, where there is memory to share them so that a copy takes none.
    pub(crate) fn shared<M: Memory>(memory: M, rows: Rows<T>) -> Self
        ensures { result ≡ rows }
    {
        match Arc::new(memory.global(), rows) {
            Ok(rows) => Kept {
                owned: Owned::Shared(rows),
            },
            Err(failed) => Kept::sole(failed.value),
        }
    }

    pub(crate) fn rows(&self) -> &Rows<T>
        ensures { result.now ≡ self.now }
    {
        match &self.owned {
            Owned::Sole(rows) => rows,
            Owned::Shared(rows) => rows,
        }
    }
}

impl<T> Kept<T> {
    // The same rows once more, without memory; None where they have one owner by themselves, or the
    // owners cannot be counted.
    pub(crate) fn share(&self) -> Option<Self>
        ensures { IfSome result (λ kept. kept ≡ self.now) }
    {
        match &self.owned {
            Owned::Sole(_) => None,
            Owned::Shared(rows) => match Arc::try_clone(rows) {
                Ok(rows) => Some(Kept {
                    owned: Owned::Shared(rows),
                }),
                Err(_) => None,
            },
        }
    }
}

impl Kept<u8> {
    // The items of all rows, in their memory, where nobody else has them.
    pub(crate) fn into_items(self) -> Result<Vec<u8>, Self>
        ensures ok { IfOk result (λ items. items.items ≡ concat self) }
        ensures err { IfErr result (λ kept. kept ≡ self) }
    {
        match self.owned {
            Owned::Sole(rows) => Ok(rows.into_items()),
            Owned::Shared(rows) => match Arc::try_unwrap(rows) {
                Ok(rows) => Ok(rows.into_items()),
                Err(rows) => Err(Kept {
                    owned: Owned::Shared(rows),
                }),
            },
        }
    }
}

impl<T: Copy> Kept<T> {
    // Removes all rows; other owners keep theirs.
    pub(crate) fn clear(&mut self)
        ensures { self.new ≡ [] }
    {
        match &mut self.owned {
            Owned::Sole(rows) => rows.clear(),
            Owned::Shared(rows) => self.owned = Owned::Sole(rows.none()),
        }
    }

    // The same rows once more: of shared ones without memory.
    pub(crate) fn copy<M: Memory>(&self, memory: M) -> Result<Self, AllocError>
        ensures same { IfOk result (λ kept. kept ≡ self.now) }
        ensures ample { M.is_ample → IsOk result }
    {
        if let Some(kept) = self.share() {
            return Ok(kept);
        }
        Ok(Kept::sole(self.rows().copy(memory)?))
    }

    // Adds a row. Shared rows are copied first, so that other owners keep theirs.
    pub(crate) fn push<M: Memory>(&mut self, memory: M, row: &[T]) -> Result<(), AllocError>
        ensures ok { OnOk result (self.new ≡ self.old ++ row.now ∷ []) }
        ensures err { OnErr result (self.new ≡ self.old) }
        ensures ample { M.is_ample → IsOk result }
    {
        if let Owned::Sole(rows) = &mut self.owned {
            return rows.push(memory, row);
        }
        let mut own = self.rows().copy(memory)?;
        own.push(memory, row)?;
        self.owned = Owned::Sole(own);
        Ok(())
    }
}
