//! A whole text through a port.
ghost use Rattle.std.specs.Prelude.{◌≡◌, ◌<◌, OnOk, OnErr};
ghost use Rattle.std.specs.Io.KnownBytes.{Appends};
ghost use Rattle.ipc_base.specs.Ports.{AppendsPart};

use crate::fault::PortFault;
use crate::port::PortWrite;

/// Writes all of the bytes. No byte goes out twice.
///
/// # Errors
///
/// F10, F11: the count of failures rose in this call; a front of the bytes stands written, and not
/// all of them.
pub fn write_all<P: PortWrite>(port: &mut P, bytes: &[u8]) -> Result<(), PortFault>
    ensures whole { OnOk result (Appends (P.written port.old) (P.written port.new) bytes.now) }
    ensures part { OnErr result (AppendsPart (P.written port.old) (P.written port.new) bytes.now) }
    ensures failed { OnErr result (P.failures port.old < P.failures port.new) }
    ensures kept { OnOk result (P.failures port.new ≡ P.failures port.old) }
{
    let mut at = 0;
    'pieces: while at < bytes.len() {
        at += port.write(&bytes[at..])?;
    }
    Ok(())
}
