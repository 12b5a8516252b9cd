use ipc_host::Obstacle;
use std::alloc::AllocError;
use std::io::ErrorKind;
use std::{fmt, io};

/// A device that fails.
#[derive(Clone, Copy, PartialEq, Eq)]
pub enum Device {
    Output,
    Clock,
}

impl fmt::Display for Device {
    fn fmt<W: fmt::Write>(&self, f: &mut fmt::Formatter<W>) -> fmt::Result {
        match self {
            Device::Output => f.write_str("standard output"),
            Device::Clock => f.write_str("the clock"),
        }
    }
}

/// Why the server failed: status 1.
#[derive(Drop)]
pub enum Exit {
    /// A path cannot be bound, and why.
    CannotListen(String, Obstacle),
    /// The trace that is required cannot be written.
    TraceRequired,
    /// A worker cannot be started.
    NoWorker,
    /// The program itself got no memory.
    NoMemory,
    /// A device failed, and why.
    DeviceFailed(Device, io::Error),
    /// The descriptor of `--ready-fd` is not open for writing.
    NoReadyDescriptor(u16),
    /// There is no room for the two connections of the program's own client.
    NoRoomForProbe,
    /// The client of the program's own did not get its message.
    ProbeFailed,
}

impl From<AllocError> for Exit {
    fn from(_: AllocError) -> Exit {
        Exit::NoMemory
    }
}

impl Exit {
    /// Standard output failed.
    pub fn of_output(error: io::Error) -> Exit {
        Exit::of_device(Device::Output, error)
    }

    /// The clock failed.
    pub fn of_clock(error: io::Error) -> Exit {
        Exit::of_device(Device::Clock, error)
    }

    fn of_device(device: Device, error: io::Error) -> Exit {
        if error.kind() == ErrorKind::OutOfMemory {
            Exit::NoMemory
        } else {
            Exit::DeviceFailed(device, error)
        }
    }
}

impl fmt::Display for Exit {
    fn fmt<W: fmt::Write>(&self, f: &mut fmt::Formatter<W>) -> fmt::Result {
        match self {
            Exit::CannotListen(path, obstacle) => {
                write!(f, "l4d: cannot listen on {path}\n  {obstacle}")
            }
            Exit::TraceRequired => write!(f, "l4d: ended, since --trace-required was given"),
            Exit::NoWorker => write!(
                f,
                "l4d: no worker can be started: a limit of processes or memory"
            ),
            Exit::NoMemory => write!(f, "l4d: no memory"),
            Exit::DeviceFailed(device, error) => {
                write!(f, "l4d: device failed\n  {device}: {error}")
            }
            Exit::NoReadyDescriptor(fd) => write!(
                f,
                "l4d: --ready-fd {fd}: who starts it has opened no such descriptor for writing"
            ),
            Exit::NoRoomForProbe => write!(
                f,
                "l4d: --probe makes two connections, and there is room for fewer"
            ),
            Exit::ProbeFailed => write!(f, "l4d: probe failed"),
        }
    }
}
