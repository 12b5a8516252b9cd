//! The kernel under a lock: what its steps told goes into the boxes of those whom it concerns, and
//! the pens that come out of them are written with and laid down again.
#![tactic(auto)]

mod ends;
mod inside;
pub mod laws;
mod logged;
mod shared_kernel;

pub use ends::{PostEnd, TakeEnd};
pub use ipc_base::Naming;
pub use ipc_seats::{
    Answered, Behind, BlankLog, CallSeat, Entered, HeldPart, Loaded, Locked, NotGiven, Roll,
    TakeSeat, Taken,
};
pub use logged::{MarkBook, MoveBook, TickBook};
pub use shared_kernel::SharedKernel;
