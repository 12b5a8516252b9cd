ghost use Rattle.std.specs.Prelude.{◌≡◌, List, [], ◌∷◌, ◌++◌};

use crate::log::Log;
use std::marker::Model;

/// All that came so far, oldest first, which proofs alone know. It takes no memory, and adding to
/// it does nothing at run time.
#[derive(Drop)]
pub struct Past<T> {
    log: Log<T>,
}

impl<T> Model for Past<T> {
    ghost use Rattle.std.specs.Prelude.{List};

    ghost Value = { List T };

    ghost view = { λ p. p.log.items };
}

impl<T> Past<T> {
    /// Nothing came yet.
    pub fn new() -> Past<T>
        ensures { result ≡ [] }
    {
        Past { log: Log::new() }
    }

    /// What came is what the caller's proof names. For a past that began elsewhere: no code picks
    /// it.
    pub fn told() -> Past<T>
        ghost items: { List T }
        ensures { result ≡ items }
    {
        Past { log: Log::told() }
    }

    /// One more came.
    pub fn add(&mut self, next: &T)
        ensures { self.new ≡ self.old ++ next.now ∷ [] }
    {
        self.log = self.log.and(next);
    }
}
