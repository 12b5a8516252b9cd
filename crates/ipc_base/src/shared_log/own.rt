//! What an owner knows of a log.

ghost use Rattle.std.specs.Prelude.{◌≡◌};

use crate::shared_log::entry::{Entry, Naming};
use crate::shared_log::rule::Pass;
use std::marker::{Model, PhantomData};
use std::sync::ledger::Total;

/// Which entries of a log are those of an owner, and the log so far as the owner saw it. No other
/// one has its number.
#[derive(Drop)]
pub struct Own<E: Entry, C: Naming> {
    pub(crate) number: u64,
    pub(crate) pass: Pass<E>,
    pub(crate) of: PhantomData<Total<C>>,
}

impl<E: Entry, C: Naming> Model for Own<E, C> {
    ghost use Rattle.std.specs.Prelude.{◌≡◌, []};
    ghost use Rattle.ipc_base.specs.LogViews.{Known};

    ghost Value = { Known E };

    ghost use Rattle.ipc_base.specs.LogViews.{owning, known_of, table_of};

    ghost view = { λ o. known_of o.pass.me.0 };

    ghost invariant = { λ o. (o.number ≡ o.pass.me.0.number) × (o.pass.table_id ≡ table_of E.kind C.tables) × (o.pass.me ≡ (owning (known_of o.pass.me.0), [])) };
}

impl<E: Entry, C: Naming> Own<E, C> {
    /// The owner's number.
    pub fn number(&self) -> u64
        ensures { result ≡ self.now.number }
    {
        self.number
    }
}
