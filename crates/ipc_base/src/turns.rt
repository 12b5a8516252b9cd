//! Turns of a device: an interrupted one is taken again, and 1,000 of them in a row are a fault.
ghost use Rattle.std.specs.Prelude.{◌≡◌, ◌<◌, IfOk, length};
ghost use Rattle.std.specs.Io.{ReadsAtMost, WritesAtMost};
ghost use Rattle.std.specs.Io.KnownBytes.{Keeps, ReadConsumes, WriteAppends};

use crate::fault::PortFault;
use std::io::{ErrorKind, Read, Write};

// So many interrupted turns in a row are a fault.
pub(crate) const MAX_INTERRUPTED: u32 = 1000;

/// Reads once from a reader of std. None comes only at the end of the input, or where `buf` has no
/// room.
///
/// # Errors
///
/// F10, F11: no byte was taken.
pub fn read_turn<R: Read>(reader: &mut R, buf: &mut [u8]) -> Result<usize, PortFault>
    ensures bound { ReadsAtMost result buf.new }
    ensures bytes { ReadConsumes (R.remaining reader.old) (R.remaining reader.new) result buf.new }
{
    'turns: for _ in 0..MAX_INTERRUPTED {
        match reader.read(buf) {
            Ok(count) => return Ok(count),
            Err(error) if error.kind() == ErrorKind::Interrupted => {}
            Err(_) => return Err(PortFault::DeviceFailed),
        }
    }
    Err(PortFault::Interrupted)
}

// Writes once. A device that takes none of some bytes has failed.
pub(crate) fn write_turn<W: Write>(writer: &mut W, buf: &[u8]) -> Result<usize, PortFault>
    ensures bound { WritesAtMost result buf.now }
    ensures moved { IfOk result (λ n. 0 < length buf.now → 0 < n) }
    ensures bytes { WriteAppends (W.contents writer.old) (W.contents writer.new) result buf.now }
{
    'turns: for _ in 0..MAX_INTERRUPTED {
        match writer.write(buf) {
            Ok(0) if !buf.is_empty() => return Err(PortFault::DeviceFailed),
            Ok(count) => return Ok(count),
            Err(error) if error.kind() == ErrorKind::Interrupted => {}
            Err(_) => return Err(PortFault::DeviceFailed),
        }
    }
    Err(PortFault::Interrupted)
}

// Flushes once.
pub(crate) fn flush_turn<W: Write>(writer: &mut W) -> Result<(), PortFault>
    ensures bytes { Keeps (W.contents writer.old) (W.contents writer.new) }
{
    'turns: for _ in 0..MAX_INTERRUPTED {
        match writer.flush() {
            Ok(()) => return Ok(()),
            Err(error) if error.kind() == ErrorKind::Interrupted => {}
            Err(_) => return Err(PortFault::DeviceFailed),
        }
    }
    Err(PortFault::Interrupted)
}
