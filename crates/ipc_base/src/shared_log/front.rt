//! A beginning of a log.

use crate::shared_log::entry::{Entry, Naming};
use crate::shared_log::rule::Pass;
use std::marker::{Model, PhantomData};
use std::sync::ledger::Total;

/// The log so far, as it once was seen.
#[derive(Drop)]
pub struct Front<E: Entry, C: Naming> {
    pub(crate) pass: Pass<E>,
    pub(crate) of: PhantomData<Total<C>>,
}

impl<E: Entry, C: Naming> Model for Front<E, C> {
    ghost use Rattle.std.specs.Prelude.{◌≡◌, List, []};

    ghost Value = { List E };

    ghost use Rattle.ipc_base.specs.LogViews.{fronting, table_of};

    ghost view = { λ f. f.pass.me.0.seen };

    ghost invariant = { λ f. (f.pass.table_id ≡ table_of E.kind C.tables) × (f.pass.me ≡ (fronting f.pass.me.0.seen, [])) };
}
