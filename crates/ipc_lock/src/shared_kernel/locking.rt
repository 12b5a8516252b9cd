//! The lock is taken.

use super::SharedKernel;
use crate::logged::Logged;
use ipc_base::Naming;
use ipc_connection::PenPort;
use std::hint::spin_loop;
use std::sync::ledger::Ledger;
use std::sync::{MutexGuard, Wait};
use std::thread::yield_now;

/// How often a thread tries to take the lock at once, before it lets others run. The lock is held
/// for a microsecond or two.
const TRIES: u32 = 16;

/// How often it lets others run before it sleeps for the lock. Who has the lock may be among them,
/// and to be woken takes longer.
const TURNS: u32 = 16;

impl<C: Naming, T: Ledger, P: PenPort + Drop> SharedKernel<C, T, P> {
    /// Takes the lock. It is tried for a while first: who sleeps for it has to be woken, and that
    /// costs more than most steps.
    pub(super) fn inside<R: Wait>(&self, rt: &R) -> MutexGuard<'_, Logged<C, T, P>> {
        if let Some(inside) = self.try_at_once() {
            return inside;
        }
        if let Some(inside) = self.try_in_turns() {
            return inside;
        }
        self.inside.lock(rt)
    }

    /// Tries to take the lock, again at once while another thread has it.
    fn try_at_once(&self) -> Option<MutexGuard<'_, Logged<C, T, P>>> {
        for _ in 0..TRIES {
            if let Some(inside) = self.inside.try_lock() {
                return Some(inside);
            }
            spin_loop();
        }
        None
    }

    /// Lets others run, and then tries to take the lock, again and again.
    fn try_in_turns(&self) -> Option<MutexGuard<'_, Logged<C, T, P>>> {
        for _ in 0..TURNS {
            yield_now();
            if let Some(inside) = self.inside.try_lock() {
                return Some(inside);
            }
        }
        None
    }
}
