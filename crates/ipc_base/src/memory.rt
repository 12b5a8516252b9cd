// Memory as a bound: contracts can say what a function does where no growth is refused.

ghost use Rattle.std.specs.Prelude.{◌≡◌, ◌+◌, ◌<◌, ◌≤◌, vec_len, vec_capacity, [], ◌∷◌, ◌++◌, length, if◌then◌else◌, is_ok};
ghost use Rattle.std.specs.Prelude.{IfOk, IfErr, IsOk, OnOk, OnErr};
ghost use Rattle.ipc_base.specs.Memory.{ample_items};

use std::alloc::{AllocError, Global};

/// Where the lists and boxes of a program get their room.
pub trait Memory: Copy {
    /// No growth is refused.
    ghost is_ample: { Type 0 };

    /// The allocator itself, for what takes no room.
    fn global(self) -> Global;

    /// An empty list with room for so many items; room for none is never refused.
    fn with_capacity<X>(self, count: usize) -> Result<Vec<X>, AllocError>
        ensures items { IfOk result (λ v. v.items ≡ []) }
        ensures len { IfOk result (λ v. vec_len v ≡ 0) }
        ensures room { IfOk result (λ v. count ≤ vec_capacity v) }
        ensures none { count ≡ 0 → IsOk result }
        ensures ample { is_ample → count ≤ ample_items → IsOk result };

    /// Room for so many more items.
    fn reserve<X>(self, items: &mut Vec<X>, more: usize) -> Result<(), AllocError>
        ensures items { items.new.items ≡ items.old.items }
        ensures len { vec_len items.new ≡ vec_len items.old }
        ensures ok { OnOk result (vec_len items.new + more ≤ vec_capacity items.new) }
        ensures capacity { vec_capacity items.old ≤ vec_capacity items.new }
        ensures err { OnErr result (vec_capacity items.new ≡ vec_capacity items.old) }
        ensures needed { OnErr result (vec_capacity items.old < vec_len items.old + more) }
        ensures ample { is_ample → more ≤ ample_items → IsOk result };

    /// Appends items.
    fn extend<X: Copy>(self, items: &mut Vec<X>, slice: &[X]) -> Result<(), AllocError>
        ensures items { items.new.items ≡ (if is_ok result then items.old.items
            ++ slice.now else items.old.items) }
        ensures capacity { vec_capacity items.old ≤ vec_capacity items.new }
        ensures ample { is_ample → IsOk result };

    /// A value on the heap, or the value itself.
    fn boxed<X>(self, value: X) -> Result<Box<X>, X>
        ensures ok { IfOk result (λ b. b.value ≡ value) }
        ensures err { IfErr result (λ back. back ≡ value) }
        ensures ample { is_ample → IsOk result };
}

/// Of the allocator nothing is known.
impl Memory for Global {
    ghost is_ample = { ⊥ };

    fn global(self) -> Global {
        self
    }

    fn with_capacity<X>(self, count: usize) -> Result<Vec<X>, AllocError> {
        Vec::with_capacity(self, count)
    }

    fn reserve<X>(self, items: &mut Vec<X>, more: usize) -> Result<(), AllocError> {
        items.reserve(more)
    }

    fn extend<X: Copy>(self, items: &mut Vec<X>, slice: &[X]) -> Result<(), AllocError> {
        items.extend_from_slice(slice)
    }

    fn boxed<X>(self, value: X) -> Result<Box<X>, X> {
        Box::new(self, value).map_err(|failed| failed.value)
    }
}

/// A list of the same items.
pub fn from_slice<M: Memory, X: Copy>(memory: M, slice: &[X]) -> Result<Vec<X>, AllocError>
    ensures items { IfOk result (λ v. v.items ≡ slice.now) }
    ensures ample { M.is_ample → IsOk result }
{
    let mut items = Vec::new(memory.global());
    memory.extend(&mut items, slice)?;
    Ok(items)
}

/// Appends an item, or gives it back.
pub fn push<M: Memory, X>(memory: M, items: &mut Vec<X>, item: X) -> Result<(), X>
    ensures items { items.new.items ≡ (if is_ok result then items.old.items
        ++ item ∷ [] else items.old.items) }
    ensures err { IfErr result (λ back. back ≡ item) }
    ensures ample { M.is_ample → IsOk result }
{
    if memory.reserve(items, 1).is_err() {
        return Err(item);
    }
    items.push_reserved(item);
    Ok(())
}
