//! What an event is made of, where proofs alone know it.
ghost use Rattle.std.specs.Prelude.{◌≡◌, Bool, List, ℕ};
ghost use Rattle.ipc_history.specs.Outcomes.{OutcomeParts};
ghost use Rattle.ipc_seats.specs.Gifts.{gifts};
ghost use Rattle.ipc_seats.specs.declared.events.Gift.{Gift};

use crate::inside::Inside;
use ipc_base::{Naming, Past};
use ipc_connection::PenPort;
use ipc_history::Outcome;
use ipc_seats::{Errands, Gift, Taken, Work};
use std::sync::ledger::Ledger;

/// What the pens on errands were given last.
pub(super) fn gifts<C: Naming, P: PenPort + Drop>(errands: &Errands<C, P>) -> Past<Gift>
    ensures { result ≡ gifts errands.now }
{
    told(errands)
}

/// What the caller's proof says of errands.
fn told<C: Naming, P: PenPort + Drop>(errands: &Errands<C, P>) -> Past<Gift>
    ghost items: { List Gift }
    ensures { result ≡ items }
{
    Past::told()
}

/// What the caller's proof says of a box: the number of its connection, if there is one.
pub(super) fn number_at<C: Naming, T: Ledger, P: PenPort + Drop>(
    inside: &Inside<C, T, P>,
    place: usize,
) -> Past<u64>
    ghost items: { List ℕ }
    ensures { result ≡ items }
{
    Past::told()
}

/// What the caller's proof says of a box: whether its pen lies there at its end, if it is there.
pub(super) fn idle_at<C: Naming, T: Ledger, P: PenPort + Drop>(
    inside: &Inside<C, T, P>,
    place: usize,
) -> Past<bool>
    ghost items: { List Bool }
    ensures { result ≡ items }
{
    Past::told()
}

/// What the caller's proof says of a writer's pen: what it was given, where it lay at its end.
pub(super) fn gifts_of_work<C: Naming, P: PenPort + Drop>(
    idle: &Past<bool>,
    next: &Option<Work<C, P>>,
) -> Past<Gift>
    ghost items: { List Gift }
    ensures { result ≡ items }
{
    Past::told()
}

/// What the caller's proof says was taken.
pub(super) fn outcomes<T: Ledger>(taken: &Option<Taken<T>>) -> Past<Outcome>
    ghost items: { List OutcomeParts }
    ensures { result ≡ items }
{
    Past::told()
}
