use crate::progress::{ConnectRefused, Progress};

/// What may happen to an exchange. Connections are numbered from 1 on.
#[derive(Drop)]
pub enum Event {
    /// A connection comes from a space, 1 to `MAX_SPACE`.
    Connect(u32),
    /// A piece of bytes comes on a connection.
    Piece(usize, Vec<u8>),
    /// The input of a connection ends.
    Finish(usize),
    /// The clock is read, in microseconds.
    Reading(u64),
    /// A block of the least call in transfer is copied.
    Copy,
    /// Bytes of a connection go out: as many as wait on it, and as the buffer has room for.
    Output(usize, Vec<u8>),
}

/// How an event is answered.
#[derive(Drop)]
pub enum Reply {
    /// The connection came, and has this number.
    Connected(usize),
    /// The connection was refused; nothing happened.
    Refused(ConnectRefused),
    /// The piece came; whether its connection goes on.
    Fed(Progress),
    /// These bytes went out, in the buffer that the event brought.
    Put(Vec<u8>),
    /// It happened.
    Done,
}
