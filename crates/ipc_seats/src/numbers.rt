//! The numbers of connections, each of which is taken once.
ghost use Rattle.std.specs.Prelude.{◌≡◌, ◌++◌, ◌∷◌, [], IfNone, IfSome, false};
ghost use Rattle.ipc_seats.specs.Numbering.{is_taken};

use ipc_base::Past;
use std::marker::Model;

/// The numbers that were taken so far. All are below the next one.
#[derive(Drop)]
pub struct Numbers {
    next: u64,
    taken: Past<u64>,
}

impl Model for Numbers {
    ghost use Rattle.std.specs.Prelude.{ℕ, List};
    ghost use Rattle.ipc_seats.specs.Numbering.{AreBelow};

    ghost Value = { List ℕ };

    ghost view = { λ numbers. numbers.taken };

    ghost invariant = { λ numbers. AreBelow numbers.next numbers.taken };
}

impl Numbers {
    /// None was taken.
    pub fn new() -> Numbers
        ensures { result ≡ [] }
    {
        Numbers {
            next: 0,
            taken: Past::new(),
        }
    }

    /// A number that was never taken. None once there is no more.
    #[tactic(auto, using(crate::proofs::Taking::below_more, crate::proofs::Taking::is_new))]
    pub fn take(&mut self) -> Option<u64>
        ensures some { IfSome result (λ number. (is_taken number self.old ≡ false)
            × (self.new ≡ self.old ++ number ∷ [])) }
        ensures none { IfNone result (self.new ≡ self.old) }
    {
        let number = self.next;
        let next = number.checked_add(1)?;
        self.taken.add(&number);
        self.next = next;
        Some(number)
    }
}
