//! Any reader of std as a port.
ghost use Rattle.std.specs.Prelude.{◌≤◌};
ghost use Rattle.ipc_base.specs.Ports.{max_reads};

use crate::failures::Failures;
use crate::fault::PortFault;
use crate::limits::MAX_READS;
use crate::port::PortRead;
use crate::turns::read_turn;
use std::io::Read;
use std::sync::ledger::Ledger;

/// A reader as a port, as standard input, a file, or a `&UnixStream`.
#[derive(Drop)]
pub struct ReadPort<R: Read, L: Ledger> {
    inner: R,
    failures: Failures<L>,
    reads: u64,
    ghost within: { reads ≤ max_reads },
}

impl<R: Read, L: Ledger> ReadPort<R, L> {
    ghost use Rattle.std.specs.Prelude.{◌≡◌};

    /// The port of a reader of which no call has failed.
    pub fn new(inner: R, failures: Failures<L>) -> ReadPort<R, L>
        ensures inner { result.inner ≡ inner }
        ensures failures { result.failures ≡ failures }
    {
        ReadPort {
            inner,
            failures,
            reads: 0,
        }
    }
}

impl<R: Read, L: Ledger> PortRead for ReadPort<R, L> {
    ghost use Rattle.std.specs.Prelude.{◌-◌};

    ghost remaining = { λ port. R.remaining port.inner };

    ghost failures = { λ port. port.failures };

    ghost reads_left = { λ port. max_reads - port.reads };

    fn read(&mut self, buf: &mut [u8]) -> Result<usize, PortFault> {
        if self.reads >= MAX_READS {
            self.failures.count();
            return Err(PortFault::DeviceFailed);
        }
        self.reads += 1;
        match read_turn(&mut self.inner, buf) {
            Ok(count) => Ok(count),
            Err(fault) => {
                self.failures.count();
                Err(fault)
            }
        }
    }
}
