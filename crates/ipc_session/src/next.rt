use ipc_frame::{Frame, WireVersion};
use ipc_history::Outcome;

/// What a writer writes next.
#[derive(Drop)]
pub enum Next {
    /// An answer that was posted.
    Frame(Frame),
    /// The outcome of a call, which goes out as IPCR of the connection's version.
    Outcome(WireVersion, Outcome),
    /// Nothing more comes.
    Gone,
}
