//! The fault of a port as a fault of a frame.
ghost use Rattle.std.specs.Prelude.{◌≡◌};
ghost use Rattle.ipc_client.specs.Devices.{device_fault};

use ipc_base::PortFault;
use ipc_frame::FrameFault;

/// F10 or F11.
pub(crate) fn device_fault(fault: PortFault) -> FrameFault
    ensures { result ≡ device_fault fault }
{
    match fault {
        PortFault::DeviceFailed => FrameFault::Device,
        PortFault::Interrupted => FrameFault::Interrupted,
    }
}
