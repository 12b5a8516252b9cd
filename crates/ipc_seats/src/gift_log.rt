//! The log of all that connections were given, which lies under the lock beside what gives it.
ghost use Rattle.std.specs.Prelude.{◌≡◌, ◌++◌, ◌∷◌, [], Contains};
ghost use Rattle.ipc_seats.specs.Giving.{all_given, is_to, pens_by};
ghost use Rattle.ipc_seats.specs.declared.events.Gave.TheVariants as gave;
ghost use Rattle.ipc_base.specs.LogRules.{entries_of, numbers_of};

use crate::events::Gave;
use ipc_base::{Keeper, Log, Naming, Own, Past};
use ipc_connection::Given;
use std::marker::Model;

/// The log of gifts, and who keeps it. A pen knows which of its entries are its own, wherever it
/// is.
#[derive(Drop)]
pub struct GiftLog<C: Naming> {
    log: Log<Gave, C>,
    keeper: Keeper<Gave, C>,
}

impl<C: Naming> Model for GiftLog<C> {
    ghost use Rattle.std.specs.Prelude.{List};
    ghost use Rattle.ipc_seats.specs.declared.events.Gave.{Gave};

    ghost Value = { List Gave };

    ghost view = { λ gifts. gifts.keeper };
}

impl<C: Naming> GiftLog<C> {
    /// The log of gifts, by who keeps it.
    pub(crate) fn new(log: Log<Gave, C>, keeper: Keeper<Gave, C>) -> GiftLog<C>
        ensures { result ≡ keeper }
    {
        GiftLog { log, keeper }
    }

    /// The connection of a number, which no other one has, gets a pen: what that knows, to which
    /// nothing was given.
    pub fn begin(&mut self, number: u64) -> Own<Gave, C>
        requires { Contains (numbers_of pens_by self.old) number → ⊥ }
        ensures log { self.new ≡ self.old ++ gave.Began number ∷ [] }
        ensures number { result.number ≡ number }
        ensures nothing { all_given result.mine ≡ [] }
    {
        self.log
            .begin(&mut self.keeper, &Gave::Began { number }, number)
    }

    /// A pen is given this.
    pub(crate) fn tell(&mut self, own: &mut Own<Gave, C>, given: &Given)
        ensures log { self.new ≡ self.old ++ gave.Told own.old.number (given.now ∷ []) ∷ [] }
        ensures number { own.new.number ≡ own.old.number }
        ensures mine { own.new.mine ≡ own.old.mine ++ gave.Told own.old.number (given.now ∷ []) ∷ [] }
    {
        let mut past = Past::new();
        past.add(given);
        let told = Gave::Told {
            number: own.number(),
            given: past,
        };
        self.log.add_own(&mut self.keeper, own, &told);
    }

    /// What the log is to a pen.
    pub(crate) fn look(&mut self, own: &mut Own<Gave, C>)
        ensures log { self.new ≡ self.old }
        ensures number { own.new.number ≡ own.old.number }
        ensures mine { own.new.mine ≡ own.old.mine }
        ensures all { own.old.mine ≡ entries_of is_to own.old.number self.old }
    {
        self.log.look(&mut self.keeper, own);
    }
}
