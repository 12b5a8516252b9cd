//! Why a call of a port failed.
ghost use Rattle.std.specs.Prelude.{◌≡◌};
ghost use Rattle.ipc_base.specs.Faults.{fault_number};

use std::error::Error;
use std::fmt;

/// Why a call of a port failed. The port has counted it.
#[derive(Clone, Copy, PartialEq, Eq, Debug)]
pub enum PortFault {
    /// F10: the device failed in this call.
    DeviceFailed,
    /// F11: 1,000 turns in a row were interrupted.
    Interrupted,
}

impl PortFault {
    /// The number of the fault, 10 or 11, printed after F.
    pub fn number(self) -> u8
        ensures { result ≡ fault_number self }
    {
        match self {
            PortFault::DeviceFailed => 10,
            PortFault::Interrupted => 11,
        }
    }
}

impl fmt::Display for PortFault {
    ghost use Rattle.std.specs.Prelude.{Some};
    ghost use Rattle.ipc_base.specs.Faults.{fault_text};

    ghost output = { λ fault. Some (fault_text fault) };

    fn fmt<W: fmt::Write>(&self, f: &mut fmt::Formatter<W>) -> fmt::Result {
        match self {
            PortFault::DeviceFailed => write!(f, "the device failed"),
            PortFault::Interrupted => write!(f, "1,000 interrupted turns in a row"),
        }
    }
}

impl Error for PortFault {}
