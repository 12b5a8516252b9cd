//! Where a client began.
use std::collections::LinkedList;

/// What the ports of a client had moved before it began. No value of it is made: proofs alone know
/// it.
#[derive(Drop)]
pub struct Start {
    /// What had come to its reader, where the port tells that.
    pub came: Option<LinkedList<u8>>,
    /// What was left there, where the port tells that.
    pub left: Option<LinkedList<u8>>,
    /// What its writer had, where the port tells that.
    pub written: Option<LinkedList<u8>>,
}
