// A list that proofs alone read.
ghost use Rattle.std.specs.Prelude.{◌≡◌, List, [], ◌∷◌, ◌++◌};
ghost use Rattle.std.specs.Borrow.{ftrue};

use std::marker::{Model, PhantomData};

/// What came so far, oldest first. It takes no memory, and adding to it does nothing at run time. A
/// clause reads it as `items`.
#[derive(Drop)]
pub(crate) struct Log<T> {
    of: PhantomData<T>,
    pub(crate) ghost items: { List T },
}

impl<T> Model for Log<T> {
    ghost also_owns = { λ _. ftrue };
}

// It owns nothing, so it may go to another thread.
unsafe impl<T: Send> Send for Log<T> {}

impl<T> Log<T> {
    /// Nothing came yet.
    pub(crate) fn new() -> Log<T>
        ensures { result.items ≡ [] }
    {
        Log { of: PhantomData }
    }

    /// What came is what a caller's proof says.
    pub(crate) fn told() -> Log<T>
        ghost items: { List T }
        ensures { result.items ≡ items }
    {
        Log { of: PhantomData }
    }

    /// The same, with one more at its end.
    pub(crate) fn and(&self, next: &T) -> Log<T>
        ensures { result.items ≡ self.now.items ++ next.now ∷ [] }
    {
        Log { of: PhantomData }
    }
}
