//! What stands under the lock, and the log of all that was done to it, which proofs alone know.
ghost use Rattle.std.specs.Prelude.{◌≡◌, ◌^◌, [], IfErr, IfOk, min};
ghost use Rattle.ipc_lock.specs.Turns.{first_inside};
ghost use Rattle.ipc_words.specs.Limits.{max_calls, max_entries};

mod boxes;
mod counted;
mod gifts;
mod pens;
mod reading;
mod seen;
mod stepping;
mod waking;

use crate::inside::Inside;
pub use counted::{MarkBook, MoveBook, TickBook};
use ipc_base::{Keeper, Naming};
use ipc_connection::PenPort;
use ipc_core::{Limits, Refusal};
use ipc_seats::{Event, GiftLog, Numbers};
use std::alloc::Global;
use std::marker::Model;
use std::sync::ledger::{Blank, Ledger};

/// What stands under the lock, the numbers of connections, and who keeps the log of all that was
/// done so far: from an empty kernel without boxes those events lead to what stands here, one after
/// the other. Nobody else adds to the log. Beside it stands the log of gifts, which says what those
/// events gave.
#[derive(Drop)]
pub(crate) struct Logged<C: Naming, T: Ledger, P: PenPort + Drop> {
    inside: Inside<C, T, P>,
    numbers: Numbers,
    keeper: Keeper<Event, C>,
    gifts: GiftLog<C>,
}

impl<C: Naming, T: Ledger, P: PenPort + Drop> Model for Logged<C, T, P> {
    ghost use Rattle.ipc_lock.specs.InsideParts.{LoggedParts};

    ghost Value = { LoggedParts };

    ghost use Rattle.ipc_lock.specs.InsideParts.{parts_of};
    ghost use Rattle.ipc_lock.specs.Handing.{TellsGifts};

    ghost view = { λ l. record {
      inside = parts_of l.inside l.numbers;
      log = l.keeper;
      begun = l.inside.begun;
      is_work_over = l.inside.is_work_over;
      closed = l.inside.closed;
      is_awaited = l.inside.is_awaited;
    } };

    ghost invariant = { λ l. TellsGifts C P l.keeper l.gifts (parts_of l.inside l.numbers) };
}

impl<C: Naming, T: Ledger, P: PenPort + Drop> Logged<C, T, P> {
    /// An empty kernel, with the books of two new ledgers and two new logs, and no box. The only
    /// refusal is K4.
    pub(crate) fn new(
        alloc: Global,
        limits: Limits,
        calls: Blank,
        takes: Blank,
        keeper: Keeper<Event, C>,
        gifts: GiftLog<C>,
    ) -> Result<Self, Refusal>
        requires calls_name { calls.name ≡ C.name }
        requires calls_parts { calls.parts ≡ C.parts }
        requires many_calls { calls.parts ≡ 2 ^ 63 }
        requires takes_name { takes.name ≡ T.name }
        requires takes_parts { takes.parts ≡ T.parts }
        requires many_takes { takes.parts ≡ 2 ^ 63 }
        requires nothing { keeper ≡ [] }
        requires none { gifts ≡ [] }
        ensures log { IfOk result (λ logged. logged.log ≡ []) }
        ensures inside { IfOk result (λ logged. logged.inside
            ≡ first_inside (min limits.entries max_entries) (min limits.calls max_calls)) }
        ensures memory { IfErr result (λ refusal. refusal ≡ Refusal.NoMemory) }
    {
        let inside = Inside::new(alloc, limits, calls, takes)?;
        Ok(Logged {
            inside,
            numbers: Numbers::new(),
            keeper,
            gifts,
        })
    }
}
