//! The rules of a connection: what a frame to the server asks for, in normal form, read from a
//! stream in any pieces; what that asks of the kernel, how its answer is told, what stage comes
//! next.
//!
//! And a pen: the port that a connection's client is written by, and the frame that is not yet
//! written whole. Whoever has the pen writes, and gives it back; so no frame is overtaken and none
//! is written twice, by however many threads.
#![tactic(auto)]

mod asking;
mod block;
mod blocks;
mod call_decoder;
mod calls;
mod fault;
mod given;
mod heard;
mod held;
mod laws;
mod payload;
mod pen;
mod port;
mod replying;
mod stage;
mod turn;
mod whole;
mod writing;

pub use asking::{Reaction, Request, asks, command_of, version_asked};
pub use blocks::{Blocks, NoBlocks};
pub use call_decoder::CallDecoder;
pub use calls::call_of;
pub use fault::{FRAME, KERNEL, OUT_OF_PLACE, SESSION};
pub use given::Given;
pub use heard::Heard;
pub use laws::{a_frame_is_heard, a_piece_is_heard, frames_add_up};
pub use pen::Pen;
pub use port::{Patience, PenPort};
pub use replying::{Told, is_posted, next_stage, next_version, reply, thread_left, told_of};
pub use stage::Stage;
pub use turn::Turn;
