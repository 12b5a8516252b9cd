//! What a pen is given to write.
ghost use Rattle.std.specs.Prelude.{◌≡◌};
ghost use Rattle.ipc_frame.specs.Frames.{spelling};
ghost use Rattle.ipc_connection.specs.Pens.{frame_of};

use ipc_frame::{Encoder, Frame, WireVersion};
use ipc_history::Outcome;

/// From so many bytes of strings on, the frame of an outcome goes out in long pieces.
const LONG_STRINGS: u64 = 512;

/// What a client is told next.
#[derive(Drop)]
pub enum Given {
    /// A frame.
    Frame(Frame),
    /// The outcome of a call, which goes out as IPCR of a version.
    Outcome(WireVersion, Outcome),
}

impl Given {
    /// Whether its frame is better written in long pieces.
    pub(crate) fn is_long(&self) -> bool {
        match self {
            Given::Frame(_) => false,
            Given::Outcome(_, outcome) => outcome.strings.size() >= LONG_STRINGS,
        }
    }

    /// The bytes of its frame. Takes no memory.
    pub(crate) fn into_encoder(self) -> Encoder
        ensures { result ≡ spelling (frame_of self) }
    {
        match self {
            Given::Frame(frame) => Encoder::new(frame),
            Given::Outcome(version, outcome) => Encoder::reply(version, outcome),
        }
    }
}
