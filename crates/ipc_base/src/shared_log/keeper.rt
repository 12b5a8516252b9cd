//! Who keeps a log.

use crate::shared_log::entry::{Entry, Naming};
use crate::shared_log::rule::Pass;
use std::marker::{Model, PhantomData};
use std::sync::ledger::Total;

/// The right to add to a log, which knows it whole. There is one of each log.
#[derive(Drop)]
pub struct Keeper<E: Entry, C: Naming> {
    pub(crate) pass: Pass<E>,
    pub(crate) of: PhantomData<Total<C>>,
}

impl<E: Entry, C: Naming> Model for Keeper<E, C> {
    ghost use Rattle.std.specs.Prelude.{◌≡◌, List, []};

    ghost Value = { List E };

    ghost use Rattle.ipc_base.specs.LogViews.{keeping, table_of};

    ghost view = { λ k. k.pass.me.0.seen };

    ghost invariant = { λ k. (k.pass.table_id ≡ table_of E.kind C.tables) × (k.pass.me ≡ (keeping k.pass.me.0.seen, [])) };
}
