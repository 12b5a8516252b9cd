//! What was made of a connection.
use ipc_base::{Past, PortRead};
use ipc_session::Deed;
use std::collections::LinkedList;

/// What was made of a connection: the port that was read, and what was asked for it, with the
/// answers, in order. Proofs alone know what was asked.
#[derive(Drop)]
pub struct Served<I: PortRead> {
    /// The port that was read.
    pub reader: I,
    /// What was asked of the kernel.
    pub asked: Past<Deed>,
}

/// What a connection was. No value of it is made: proofs alone know it.
#[derive(Drop)]
pub struct Service {
    /// Its space, and its number, which no other one has.
    pub space: u64,
    pub number: u64,
    /// What had come through its port before it was served, and what had come then, where the port
    /// tells that.
    pub before: Option<LinkedList<u8>>,
    pub came: Option<LinkedList<u8>>,
    /// What was asked for it, with the answers, in order.
    pub asked: LinkedList<Deed>,
    /// What was sent to it, where the port tells that.
    pub sent: Option<LinkedList<u8>>,
}
