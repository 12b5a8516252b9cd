use ipc_connection::{Request, Told};
use ipc_frame::Frame;

/// One call of a kernel port.
#[derive(Drop)]
pub enum Deed {
    /// It was asked for this, and answered so.
    Asked(Request, Told),
    /// It was given this frame to post.
    Posted(Frame),
    /// It was told that the thread ends.
    Broke,
}
