//! A port in memory, for tests.
ghost use Rattle.std.specs.Prelude.{◌≡◌, ◌<◌, Some, None, OnOk, OnErr, length};

use crate::fault::PortFault;
use crate::port::{PortRead, PortWrite};
use crate::turns::MAX_INTERRUPTED;
use std::alloc::Global;

/// What befalls one call of a [`MemoryPort`].
#[derive(Clone, Copy, PartialEq, Eq, Debug)]
pub enum Trouble {
    /// The device fails.
    Fails,
    /// So many turns in a row are interrupted; 1,000 of them are F11, and fewer change nothing.
    Interrupted(u32),
}

/// Gives its input, and keeps what is written. One of its calls may meet trouble.
#[derive(Drop)]
pub struct MemoryPort<'a> {
    input: &'a [u8],
    output: Vec<u8>,
    is_complete: bool,
    // The most bytes of a call, at least 1.
    most: usize,
    // Calls before the one that meets trouble.
    calls_before: u64,
    trouble: Option<Trouble>,
    failures: u64,
    is_flushed: bool,
    ghost moves: { 0 < most },
}

impl<'a> MemoryPort<'a> {
    ghost use Rattle.std.specs.Prelude.{◌≡◌};

    /// A port that meets no trouble, and moves as many bytes a call as it can.
    pub fn new(alloc: Global, input: &'a [u8]) -> MemoryPort<'a>
        ensures { result.input.now ≡ input.now }
    {
        MemoryPort {
            input,
            output: Vec::new(alloc),
            is_complete: true,
            most: usize::MAX,
            calls_before: 0,
            trouble: None,
            failures: 0,
            is_flushed: true,
        }
    }

    /// The same port, whose call of this number, counted from 0 over reads, writes and flushes,
    /// meets trouble.
    pub fn with_trouble(self, call: u64, trouble: Trouble) -> MemoryPort<'a>
        ensures { result.input.now ≡ self.entry.input.now }
    {
        let mut port = self;
        port.calls_before = call;
        port.trouble = Some(trouble);
        port
    }

    /// The same port, which moves one byte a call.
    pub fn byte_by_byte(self) -> MemoryPort<'a>
        ensures { result.input.now ≡ self.entry.input.now }
    {
        let mut port = self;
        port.most = 1;
        port
    }

    /// What is left of the input.
    pub fn input(&self) -> &[u8]
        ensures { result.now ≡ self.now.input.now }
    {
        self.input
    }

    /// What was written so far, or None where a growth was refused.
    pub fn output(&self) -> Option<&[u8]> {
        self.is_complete.then_some(self.output.as_slice())
    }

    /// Whether a flush stands after the last write.
    pub fn is_flushed(&self) -> bool
        ensures { result ≡ self.now.is_flushed }
    {
        self.is_flushed
    }

    // Counts a call, which meets its trouble.
    fn turn(&mut self) -> Result<(), PortFault>
        ensures failed { OnErr result (self.old.failures < self.new.failures) }
        ensures kept { OnOk result (self.new.failures ≡ self.old.failures) }
        ensures same { self.new.input ≡ self.old.input }
    {
        if self.calls_before > 0 {
            self.calls_before -= 1;
            return Ok(());
        }
        let fault = match self.trouble.take() {
            Some(Trouble::Fails) => PortFault::DeviceFailed,
            Some(Trouble::Interrupted(times)) if times >= MAX_INTERRUPTED => PortFault::Interrupted,
            _ => return Ok(()),
        };
        if self.failures == u64::MAX {
            return Ok(());
        }
        self.failures += 1;
        Err(fault)
    }
}

impl PortRead for MemoryPort<'_> {
    ghost use Rattle.std.specs.Prelude.{length};

    ghost remaining = { λ port. Some port.input.now };

    ghost failures = { λ port. port.failures };

    ghost reads_left = { λ port. length port.input.now };

    fn read(&mut self, buf: &mut [u8]) -> Result<usize, PortFault> {
        self.turn()?;
        let count = buf.len().min(self.most).min(self.input.len());
        let (front, rest) = self.input.split_at(count);
        buf[..count].copy_from_slice(front);
        self.input = rest;
        Ok(count)
    }
}

// Its contract tells no bytes, since a growth may be refused any number of times.
impl PortWrite for MemoryPort<'_> {
    ghost written = { λ _. None };

    ghost failures = { λ port. port.failures };

    ghost flushed = { λ port. port.is_flushed };

    fn write(&mut self, buf: &[u8]) -> Result<usize, PortFault> {
        self.turn()?;
        self.is_flushed = false;
        let count = buf.len().min(self.most);
        if self.output.extend_from_slice(&buf[..count]).is_err() {
            self.is_complete = false;
        }
        Ok(count)
    }

    fn flush(&mut self) -> Result<(), PortFault> {
        self.turn()?;
        self.is_flushed = true;
        Ok(())
    }
}
