//! The bytes of an encoder through a port.
ghost use Rattle.std.specs.Prelude.{◌≡◌, ◌<◌, [], true, false, length, OnOk, OnErr, IfOk};
ghost use Rattle.std.specs.Io.KnownBytes.{Appends};
ghost use Rattle.ipc_base.specs.Ports.{AppendsPart};
ghost use Rattle.ipc_frame.specs.Writing.{Writes};

use crate::encoding::Encoder;
use ipc_base::{PortFault, PortWrite, write_all};

// Writes the next bytes of an encoder; false where none are left.
fn write_piece<P: PortWrite>(
    port: &mut P,
    encoder: &mut Encoder,
    buffer: &mut [u8],
) -> Result<bool, PortFault>
    requires { 0 < length buffer.old }
    ensures wrote { OnOk result (Writes (P.written port.old) (P.written port.new)
        encoder.old encoder.new) }
    ensures more { IfOk result (λ more. more ≡ true → length encoder.new < length encoder.old) }
    ensures done { IfOk result (λ more. more ≡ false → encoder.old ≡ []) }
    ensures part { OnErr result (AppendsPart (P.written port.old)
        (P.written port.new) encoder.old) }
    ensures failed { OnErr result (P.failures port.old < P.failures port.new) }
    ensures kept { OnOk result (P.failures port.new ≡ P.failures port.old) }
{
    let bytes = encoder.next_bytes(buffer);
    let count = bytes.len();
    if count == 0 {
        return Ok(false);
    }
    write_all(port, bytes)?;
    encoder.pass(count);
    Ok(true)
}

/// Writes the bytes of an encoder, in as few writes as they need, each spelled in this buffer.
///
/// # Errors
///
/// The device failed; a part of the bytes stands written.
pub fn write_encoder<P: PortWrite>(
    port: &mut P,
    encoder: &mut Encoder,
    buffer: &mut [u8],
) -> Result<(), PortFault>
    requires { 0 < length buffer.old }
    ensures whole { OnOk result (Appends (P.written port.old) (P.written port.new) encoder.old) }
    ensures part { OnErr result (AppendsPart (P.written port.old)
        (P.written port.new) encoder.old) }
    ensures failed { OnErr result (P.failures port.old < P.failures port.new) }
    ensures kept { OnOk result (P.failures port.new ≡ P.failures port.old) }
{
    'pieces: while write_piece(port, encoder, buffer)? {}
    Ok(())
}
