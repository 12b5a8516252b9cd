//! The reading side of a socket that may look for a little while before it sleeps.
ghost use Rattle.std.specs.Prelude.{◌≡◌, ◌≤◌, ◌++◌, [], Some, None, take, length, IfSome, MatchOption};
ghost use Rattle.ipc_base.specs.Ports.{max_reads};

use crate::clock::ServerClock;
use crate::inlet::Inlet;
use ipc_base::{MAX_READS, PortFault, PortRead};
use std::os::unix::net::UnixStream;
use std::rt::Clock;
use std::sync::atomic::{AtomicBool, Ordering};

/// How long a read looks for bytes before it sleeps, in microseconds.
const LOOK: u64 = 30;

/// How often it looks at most.
const MOST_LOOKS: u32 = 1_000;

/// How many reads sleep at once, at most, where those that looked found nothing.
const MOST_SLEEPS: u32 = 64;

/// Whether a read looks for bytes before it sleeps.
#[derive(Drop)]
struct Lookout<'a, R: Clock> {
    rt: &'a R,
    clock: ServerClock,
    soon: &'a AtomicBool,
    // so many reads sleep at once after the next look that finds nothing, and so many still do
    pause: u32,
    sleeps: u32,
}

impl<R: Clock> Lookout<'_, R> {
    /// Whether the next read is to look for bytes.
    fn is_to_look(&mut self) -> bool {
        if !self.soon.swap(false, Ordering::SeqCst) {
            return false;
        }
        let looks = self.sleeps == 0;
        self.sleeps = self.sleeps.saturating_sub(1);
        looks
    }

    /// Looks for bytes, and notes whether some came. None where the time is over, or the system
    /// says why there are none.
    fn look_once(&mut self, inlet: &mut Inlet<'_>, buf: &mut [u8]) -> Option<usize>
        ensures bound { IfSome result (λ count. count ≤ length buf.new) }
        ensures came { MatchOption result (inlet.new.came ≡ inlet.old.came)
            (λ count. inlet.new.came ≡ inlet.old.came ++ take count buf.new) }
    {
        let found = self.look(inlet, buf);
        if found.is_some() {
            self.pause = 1;
        } else {
            self.sleeps = self.pause;
            self.pause = self.pause.saturating_mul(2).min(MOST_SLEEPS);
        }
        found
    }

    /// Looks for bytes until some are there. None where the time is over, or the system says why
    /// there are none.
    fn look(&self, inlet: &mut Inlet<'_>, buf: &mut [u8]) -> Option<usize>
        ensures bound { IfSome result (λ count. count ≤ length buf.new) }
        ensures came { MatchOption result (inlet.new.came ≡ inlet.old.came)
            (λ count. inlet.new.came ≡ inlet.old.came ++ take count buf.new) }
    {
        let end = self.clock.now(self.rt).saturating_add(LOOK);
        'looks: for _ in 0..MOST_LOOKS {
            if let Some(count) = inlet.take_at_once(buf) {
                return Some(count);
            }
            if os::errno() != libc::EAGAIN || self.clock.now(self.rt) >= end {
                return None;
            }
        }
        None
    }
}

/// What a client sends. Where its answer went out at once, its next frame may come soon: the next
/// read then looks for it for 30 microseconds before it sleeps. After a look that found nothing one
/// such read sleeps at once, after the next one two, and up to 64. Contracts see the bytes that the
/// system said it gave.
#[derive(Drop)]
pub struct EagerStream<'a, R: Clock> {
    lookout: Lookout<'a, R>,
    inlet: Inlet<'a>,
    failures: u64,
    reads: u64,
    ghost within: { reads ≤ max_reads },
}

impl<'a, R: Clock> EagerStream<'a, R> {
    /// The reading side of a socket of which nothing was read. `soon` is set where the next frame
    /// may come soon.
    pub fn new(
        rt: &'a R,
        clock: ServerClock,
        stream: &'a UnixStream,
        soon: &'a AtomicBool,
    ) -> EagerStream<'a, R>
        ensures { result.inlet.came ≡ [] }
    {
        EagerStream {
            lookout: Lookout {
                rt,
                clock,
                soon,
                pause: 1,
                sleeps: 0,
            },
            inlet: Inlet::new(stream),
            failures: 0,
            reads: 0,
        }
    }
}

impl<R: Clock> PortRead for EagerStream<'_, R> {
    ghost use Rattle.std.specs.Prelude.{◌-◌};

    ghost remaining = { λ _. None };

    ghost came = { λ port. Some port.inlet.came };

    ghost failures = { λ port. port.failures };

    ghost reads_left = { λ port. max_reads - port.reads };

    fn read(&mut self, buf: &mut [u8]) -> Result<usize, PortFault> {
        // after 2^64 - 1 failures, which no run has, it gives none
        if self.failures == u64::MAX {
            return Ok(0);
        }
        if self.reads >= MAX_READS {
            self.failures += 1;
            return Err(PortFault::DeviceFailed);
        }
        self.reads += 1;
        if self.lookout.is_to_look() {
            if let Some(count) = self.lookout.look_once(&mut self.inlet, buf) {
                return Ok(count);
            }
        }
        match self.inlet.take(buf) {
            Ok(count) => Ok(count),
            Err(fault) => {
                self.failures += 1;
                Err(fault)
            }
        }
    }
}
