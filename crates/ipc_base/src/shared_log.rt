//! One log for all threads, which proofs alone know. Who keeps it adds to it; each owner knows
//! which of its entries are its own, wherever the owner is.

mod entry;
mod front;
mod keeper;
mod log;
mod own;
mod roll;
mod rule;

pub use entry::{Entry, Naming};
pub use front::Front;
pub use keeper::Keeper;
pub use log::{Blank, Log};
pub use own::Own;
pub use roll::Roll;
