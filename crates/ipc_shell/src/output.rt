ghost use Rattle.std.specs.Prelude.{◌≡◌, ◌<◌, OnOk, OnErr, true};
ghost use Rattle.std.specs.Io.KnownBytes.{Appends};
ghost use Rattle.ipc_base.specs.Ports.{AppendsFront};

use ipc_base::{PortFault, PortWrite, write_all};

/// Writes a text and flushes.
///
/// # Errors
///
/// F10, F11: the count of failures rose in this call; a front of the text may stand written.
pub fn put<P: PortWrite>(port: &mut P, text: &[u8]) -> Result<(), PortFault>
    ensures whole { OnOk result (Appends (P.written port.old) (P.written port.new) text.now) }
    ensures part { OnErr result (AppendsFront (P.written port.old) (P.written port.new) text.now) }
    ensures flushed { OnOk result (P.flushed port.new ≡ true) }
    ensures failed { OnErr result (P.failures port.old < P.failures port.new) }
    ensures kept { OnOk result (P.failures port.new ≡ P.failures port.old) }
{
    write_all(port, text)?;
    port.flush()
}
