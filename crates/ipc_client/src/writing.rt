//! A frame through a port.
ghost use Rattle.std.specs.Prelude.{◌≡◌, ◌<◌, true, OnOk, OnErr, IfErr};
ghost use Rattle.std.specs.Io.KnownBytes.{Appends};
ghost use Rattle.ipc_base.specs.Ports.{AppendsFront};
ghost use Rattle.ipc_frame.specs.Frames.{spelling};
ghost use Rattle.ipc_client.specs.Devices.{IsDeviceFault};

use crate::device::device_fault;
use ipc_base::PortWrite;
use ipc_frame::{Encoder, Frame, FrameFault, write_encoder};

/// How many bytes are spelled at once. So many of a payload go out from where they stand.
const PIECE: usize = 8192;

// Writes the bytes of an encoder, and flushes the port.
fn write_through<P: PortWrite>(port: &mut P, encoder: &mut Encoder) -> Result<(), FrameFault>
    ensures whole { OnOk result (Appends (P.written port.old) (P.written port.new) encoder.old) }
    ensures flushed { OnOk result (P.flushed port.new ≡ true) }
    ensures front { OnErr result (AppendsFront (P.written port.old)
        (P.written port.new) encoder.old) }
    ensures device { IfErr result (λ fault. IsDeviceFault fault) }
    ensures failed { OnErr result (P.failures port.old < P.failures port.new) }
    ensures kept { OnOk result (P.failures port.new ≡ P.failures port.old) }
{
    if let Err(fault) = write_encoder(port, encoder, &mut [0u8; PIECE]) {
        return Err(device_fault(fault));
    }
    match port.flush() {
        Ok(()) => Ok(()),
        Err(fault) => Err(device_fault(fault)),
    }
}

/// Writes a frame, without memory, and flushes the port. No byte goes out twice.
///
/// # Errors
///
/// F10, F11: the count of failures rose in this call; a front of the frame stands written, or all
/// of it.
pub fn write_frame<P: PortWrite>(port: &mut P, frame: Frame) -> Result<(), FrameFault>
    ensures whole { OnOk result (Appends (P.written port.old) (P.written port.new)
        (spelling frame)) }
    ensures flushed { OnOk result (P.flushed port.new ≡ true) }
    ensures front { OnErr result (AppendsFront (P.written port.old) (P.written port.new)
        (spelling frame)) }
    ensures device { IfErr result (λ fault. IsDeviceFault fault) }
    ensures failed { OnErr result (P.failures port.old < P.failures port.new) }
    ensures kept { OnOk result (P.failures port.new ≡ P.failures port.old) }
{
    let mut encoder = Encoder::new(frame);
    write_through(port, &mut encoder)
}
