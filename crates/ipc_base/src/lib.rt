//! What every crate may stand on: lists that proofs alone know, of one owner or of all threads;
//! memory as a bound that contracts can speak of; and ports, reads and writes of bytes with a count
//! of the device's failures that contracts alone see.
#![tactic(auto)]

mod failures;
mod fault;
mod limits;
mod log;
mod memory;
mod memory_port;
mod newline;
mod past;
mod piece;
mod port;
mod reading;
mod shared_log;
mod turns;
mod whole;
mod writing;

pub use failures::Failures;
pub use fault::PortFault;
pub use limits::{MAX_READS, PIECE_SIZE, limits_are_defined};
pub use memory::{Memory, from_slice, push};
pub use memory_port::{MemoryPort, Trouble};
pub use newline::line_end;
pub use past::Past;
pub use piece::PieceBuffer;
pub use port::{PortRead, PortWrite};
pub use reading::ReadPort;
pub use shared_log::{Blank, Entry, Front, Keeper, Log, Naming, Own, Roll};
pub use turns::read_turn;
pub use whole::write_all;
pub use writing::WritePort;
