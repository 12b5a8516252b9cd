//! Seats. Their fields are seen by the module of the seated calls alone.
ghost use Rattle.std.specs.Prelude.{◌≡◌};

use ipc_words::ThreadId;
use std::sync::ledger::{Ledger, Share};

/// The right to enter calls of one thread, and how many it entered. Only `open_seated` makes one.
///
/// It has no copy. It goes from step to step, and every answer hands it back.
#[derive(Drop)]
pub struct CallSeat<C: Ledger> {
    pub(super) thread: ThreadId,
    pub(super) made: u64,
    pub(super) share: Share<C>,
    pub ghost one_part: { share.parts ≡ 1 },
    pub ghost counted: { share.amount ≡ made },
}

/// The right to take outcomes of one thread, and how many it took. Only `open_seated` makes one.
#[derive(Drop)]
pub struct TakeSeat<T: Ledger> {
    pub(super) thread: ThreadId,
    pub(super) taken: u64,
    pub(super) share: Share<T>,
    pub ghost one_part: { share.parts ≡ 1 },
    pub ghost counted: { share.amount ≡ taken },
}

impl<C: Ledger> CallSeat<C> {
    /// The thread whose calls are entered.
    pub fn thread(&self) -> ThreadId
        ensures { result ≡ self.now.thread }
    {
        self.thread
    }

    /// How many calls were entered by it.
    pub fn made(&self) -> u64
        ensures { result ≡ self.now.made }
    {
        self.made
    }
}

impl<T: Ledger> TakeSeat<T> {
    /// The thread whose outcomes are taken.
    pub fn thread(&self) -> ThreadId
        ensures { result ≡ self.now.thread }
    {
        self.thread
    }

    /// How many outcomes were taken by it.
    pub fn taken(&self) -> u64
        ensures { result ≡ self.now.taken }
    {
        self.taken
    }
}
