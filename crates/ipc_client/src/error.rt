//! Why a call of a client has no answer.
ghost use Rattle.std.specs.Prelude.{◌≡◌};

use ipc_frame::FrameFault;
use std::error::Error;
use std::fmt;

/// Why a call of a client has no answer. From then on every call answers `Closed`.
#[derive(Clone, Copy, PartialEq, Eq, Debug)]
pub enum ClientError {
    /// The frame, the port or the memory is at fault: F1 to F4, F9 to F11, F14.
    Frame(FrameFault),
    /// The server answered FAULT. It has ended the thread.
    Fault {
        /// The class: 0x46 for F, 0x4b for K, 0x53 for S.
        class: u8,
        /// The number that is printed after the class.
        number: u8,
    },
    /// The server answered with a frame of another kind.
    Unexpected,
    /// The client is closed: an error was answered before, or BYE was sent. Nothing was written.
    Closed,
}

impl fmt::Display for ClientError {
    fn fmt<W: fmt::Write>(&self, f: &mut fmt::Formatter<W>) -> fmt::Result {
        match self {
            ClientError::Frame(fault) => write!(f, "F{}", fault.number()),
            ClientError::Fault { class, number } => {
                write!(f, "the server answered {}{number}", char::from(*class))
            }
            ClientError::Unexpected => write!(f, "the server answered with another kind of frame"),
            ClientError::Closed => write!(f, "the client is closed"),
        }
    }
}

impl Error for ClientError {}
