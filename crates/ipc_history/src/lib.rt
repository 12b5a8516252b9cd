//! Histories of L4 X.2 IPC: what may stand in one, and the definitions of which are legal.
#![tactic(auto)]

mod call;
mod entered;
mod entries;
mod entry;
mod history;
mod keeping;
mod outcome;

pub use call::{Call, CallFields};
pub use entered::EnteredCall;
pub use entries::Entries;
pub use entry::{Entry, Input, Output};
pub use history::History;
pub use keeping::Keeps;
pub use outcome::Outcome;
