ghost use Rattle.std.specs.Prelude.{◌≡◌, ◌+◌, ◌∷◌, ◌++◌, [], length};
ghost use Rattle.ipc_tracing.specs.Working.{MovesSome, TicksSome};

use crate::shared_blocks::SharedBlocks;
use ipc_connection::PenPort;
use ipc_host::ServerClock;
use ipc_items::FreeBlocks;
use ipc_lock::{MoveBook, Naming, SharedKernel, TickBook};
use std::alloc::Global;
use std::rt::Clock;
use std::sync::ledger::Ledger;
use std::sync::{Mutex, Wait};

/// What all workers of a server share: the kernel under its lock, the clock, and the memory of long
/// strings.
#[derive(Drop)]
pub struct Server<'a, C: Naming, T: Ledger, P: PenPort + Drop, R> {
    pub rt: &'a R,
    pub alloc: Global,
    pub shared: &'a SharedKernel<C, T, P>,
    pub clock: ServerClock,
    blocks: Mutex<FreeBlocks>,
}

impl<'a, C: Naming, T: Ledger, P: PenPort + Drop, R: Wait + Clock> Server<'a, C, T, P, R> {
    /// A server over a kernel.
    pub fn new(
        rt: &'a R,
        alloc: Global,
        shared: &'a SharedKernel<C, T, P>,
        clock: ServerClock,
    ) -> Self {
        Server {
            rt,
            alloc,
            shared,
            clock,
            blocks: Mutex::new(FreeBlocks::new(alloc)),
        }
    }

    /// The memory of long strings, for one connection.
    pub fn blocks(&self) -> SharedBlocks<'_, R> {
        SharedBlocks::new(self.rt, &self.blocks)
    }

    /// The moment, in microseconds.
    pub fn now(&self) -> u64 {
        self.clock.now(self.rt)
    }

    /// Moves a part of a transfer, if one is begun, and notes in the book of a mover whether it
    /// did; false where it did not.
    pub fn advance(&self, book: &mut MoveBook) -> bool
        ensures moves { MovesSome C P result }
        ensures noted { book.new ≡ book.old ++ result ∷ [] }
    {
        let now = self.now();
        self.shared.advance(self.rt, now, book)
    }

    /// The kernel is told the moment, which is noted in the book of a ticker.
    pub fn tick(&self, book: &mut TickBook)
        ensures ticks { TicksSome C P }
        ensures counted { length book.new ≡ length book.old + 1 }
    {
        let now = self.now();
        drop(self.shared.tick(self.rt, now, book));
    }

    /// No entry is read any more by a trace: memory may let go of each.
    pub fn keep_nothing(&self) {
        self.shared.mark(self.rt, usize::MAX);
    }
}
