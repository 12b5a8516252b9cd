//! A port that can be asked not to wait.
ghost use Rattle.std.specs.Prelude.{◌≡◌, ◌<◌, ℕ, List, Option, OnOk, OnErr};
ghost use Rattle.std.specs.Io.{WritesAtMost};
ghost use Rattle.ipc_connection.specs.Pens.{Sends};

use ipc_base::PortFault;

/// Whether a write may wait for room.
#[derive(Clone, Copy, PartialEq, Eq, Debug)]
pub enum Patience {
    /// It answers at once.
    AtOnce,
    /// It may wait until the device takes some bytes.
    Waits,
}

/// A port that bytes go to, and that can be asked not to wait for room.
pub trait PenPort {
    // The bytes that were written so far, where they are told at the end.
    ghost written: { Self → Option (List ℕ) };

    // How often the device failed. It has no last value.
    ghost failures: { Self → ℕ };

    /// Writes a front of `buf`, and answers how many bytes. 0 where the device has no room now,
    /// which is no failure.
    ///
    /// # Errors
    ///
    /// F10, F11: the count of failures rose in this call, and no byte was written.
    fn send(&mut self, buf: &[u8], patience: Patience) -> Result<usize, PortFault>
        ensures bound { WritesAtMost result buf.now }
        ensures bytes { Sends (written self.old) (written self.new) result buf.now }
        ensures failed { OnErr result (failures self.old < failures self.new) }
        ensures kept { OnOk result (failures self.new ≡ failures self.old) };
}
