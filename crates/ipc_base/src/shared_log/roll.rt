//! Who is told of each end of an owner.

use crate::shared_log::entry::{Entry, Naming};
use crate::shared_log::rule::Pass;
use std::marker::{Model, PhantomData};
use std::sync::ledger::Total;

/// The right to be told of each end of an owner: none ends without it. There is one of each log.
/// Contracts see the log at the last of these ends, or as it was looked at since.
#[derive(Drop)]
pub struct Roll<E: Entry, C: Naming> {
    pub(crate) pass: Pass<E>,
    pub(crate) of: PhantomData<Total<C>>,
}

impl<E: Entry, C: Naming> Model for Roll<E, C> {
    ghost use Rattle.std.specs.Prelude.{◌≡◌, List, []};

    ghost Value = { List E };

    ghost use Rattle.ipc_base.specs.LogViews.{rolling, table_of};

    ghost view = { λ r. r.pass.me.0.last };

    ghost invariant = { λ r. (r.pass.table_id ≡ table_of E.kind C.tables) × (r.pass.me ≡ (rolling r.pass.me.0.last, [])) };
}
