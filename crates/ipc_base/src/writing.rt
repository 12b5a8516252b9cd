//! Any writer of std as a port.
use crate::failures::Failures;
use crate::fault::PortFault;
use crate::port::PortWrite;
use crate::turns::{flush_turn, write_turn};
use std::io::Write;
use std::sync::ledger::Ledger;

/// A writer as a port, as standard output, a file, or a `&UnixStream`.
#[derive(Drop)]
pub struct WritePort<W: Write, L: Ledger> {
    inner: W,
    failures: Failures<L>,
    is_flushed: bool,
}

impl<W: Write, L: Ledger> WritePort<W, L> {
    ghost use Rattle.std.specs.Prelude.{◌≡◌};

    /// The port of a writer of which no call has failed.
    pub fn new(inner: W, failures: Failures<L>) -> WritePort<W, L>
        ensures inner { result.inner ≡ inner }
        ensures failures { result.failures ≡ failures }
    {
        WritePort {
            inner,
            failures,
            is_flushed: true,
        }
    }
}

impl<W: Write, L: Ledger> PortWrite for WritePort<W, L> {
    ghost written = { λ port. W.contents port.inner };

    ghost failures = { λ port. port.failures };

    ghost flushed = { λ port. port.is_flushed };

    fn write(&mut self, buf: &[u8]) -> Result<usize, PortFault> {
        self.is_flushed = false;
        match write_turn(&mut self.inner, buf) {
            Ok(count) => Ok(count),
            Err(fault) => {
                self.failures.count();
                Err(fault)
            }
        }
    }

    fn flush(&mut self) -> Result<(), PortFault> {
        match flush_turn(&mut self.inner) {
            Ok(()) => {
                self.is_flushed = true;
                Ok(())
            }
            Err(fault) => {
                self.failures.count();
                Err(fault)
            }
        }
    }
}
