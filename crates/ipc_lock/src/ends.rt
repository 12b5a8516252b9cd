//! The two ends of a connection's box. Neither has a copy, so no worker reaches the box of another
//! connection.
use ipc_base::{Naming, Own};
use ipc_seats::{CallSeat, Event};

/// The end of a connection's reader: the box that it posts to, the space that it opens its thread
/// in, the seat by which that thread calls, once it was opened, and the connection's number, with
/// what it knows of the one log: which events it made.
#[derive(Drop)]
pub struct PostEnd<C: Naming> {
    pub(crate) place: usize,
    pub(crate) space: u64,
    pub(crate) seat: Option<CallSeat<C>>,
    pub(crate) own: Own<Event, C>,
}

/// The end of a connection's writer: the box that it takes from, and the connection's number.
#[derive(Drop)]
pub struct TakeEnd {
    pub(crate) place: usize,
    pub(crate) number: u64,
}
