//! The two kinds of port.
ghost use Rattle.std.specs.Prelude.{◌≡◌, ◌<◌, ℕ, Bool, true, List, Option, Some, None, IfOk, OnOk, OnErr, length};
ghost use Rattle.std.specs.Io.{ReadsAtMost, WritesAtMost};
ghost use Rattle.std.specs.Io.KnownBytes.{Keeps, ReadConsumes, WriteAppends};
ghost use Rattle.ipc_base.specs.Ports.{ReadAppends};

use crate::fault::PortFault;

/// A port that bytes come from.
pub trait PortRead {
    // The bytes that reads will give from here on, where they are known.
    ghost remaining: { Self → Option (List ℕ) };

    // The bytes that reads have given so far, where they are known.
    ghost came: { Self → Option (List ℕ) } = { λ _. None };

    // How often the device failed. It has no last value.
    ghost failures: { Self → ℕ };

    // How many more reads may give bytes. A loop over a port takes it as its measure.
    ghost reads_left: { Self → ℕ };

    /// Reads into the front of `buf`, and answers how many bytes. None only at the end of the
    /// input, or where `buf` has no room.
    ///
    /// # Errors
    ///
    /// F10, F11: the count of failures rose in this call, and no byte was taken.
    fn read(&mut self, buf: &mut [u8]) -> Result<usize, PortFault>
        ensures bound { ReadsAtMost result buf.new }
        ensures bytes { ReadConsumes (remaining self.old) (remaining self.new) result buf.new }
        ensures came { ReadAppends (came self.old) (came self.new) result buf.new }
        ensures failed { OnErr result (failures self.old < failures self.new) }
        ensures kept { OnOk result (failures self.new ≡ failures self.old) }
        ensures fewer { IfOk result (λ n. 0 < n → reads_left self.new < reads_left self.old) };
}

/// A port that bytes go to.
pub trait PortWrite {
    // The bytes that were written so far, where they are known.
    ghost written: { Self → Option (List ℕ) };

    // How often the device failed. It has no last value.
    ghost failures: { Self → ℕ };

    // Whether a flush stands after the last write.
    ghost flushed: { Self → Bool };

    /// Writes a front of `buf`, and answers how many bytes. None only where `buf` is empty.
    ///
    /// # Errors
    ///
    /// F10, F11: the count of failures rose in this call, and no byte was written. A device that
    /// takes 0 bytes of a `buf` that has some has failed.
    fn write(&mut self, buf: &[u8]) -> Result<usize, PortFault>
        ensures bound { WritesAtMost result buf.now }
        ensures moved { IfOk result (λ n. 0 < length buf.now → 0 < n) }
        ensures bytes { WriteAppends (written self.old) (written self.new) result buf.now }
        ensures failed { OnErr result (failures self.old < failures self.new) }
        ensures kept { OnOk result (failures self.new ≡ failures self.old) };

    /// Hands on what the device holds back of the bytes written.
    ///
    /// # Errors
    ///
    /// F10, F11: the count of failures rose in this call.
    fn flush(&mut self) -> Result<(), PortFault>
        ensures bytes { Keeps (written self.old) (written self.new) }
        ensures flushed { OnOk result (flushed self.new ≡ true) }
        ensures failed { OnErr result (failures self.old < failures self.new) }
        ensures kept { OnOk result (failures self.new ≡ failures self.old) };
}

impl<P: PortRead> PortRead for &mut P {
    ghost remaining = { λ p. P.remaining p.now };

    ghost came = { λ p. P.came p.now };

    ghost failures = { λ p. P.failures p.now };

    ghost reads_left = { λ p. P.reads_left p.now };

    fn read(&mut self, buf: &mut [u8]) -> Result<usize, PortFault> {
        PortRead::read(&mut **self, buf)
    }
}

impl<P: PortWrite> PortWrite for &mut P {
    ghost written = { λ p. P.written p.now };

    ghost failures = { λ p. P.failures p.now };

    ghost flushed = { λ p. P.flushed p.now };

    fn write(&mut self, buf: &[u8]) -> Result<usize, PortFault> {
        PortWrite::write(&mut **self, buf)
    }

    fn flush(&mut self) -> Result<(), PortFault> {
        PortWrite::flush(&mut **self)
    }
}

// Bytes in memory, which never fail.
impl PortRead for &[u8] {
    ghost remaining = { λ bytes. Some bytes.now };

    ghost failures = { λ _. 0 };

    ghost reads_left = { λ bytes. length bytes.now };

    fn read(&mut self, buf: &mut [u8]) -> Result<usize, PortFault> {
        let count = self.len().min(buf.len());
        let (front, rest) = self.split_at(count);
        buf[..count].copy_from_slice(front);
        *self = rest;
        Ok(count)
    }
}
