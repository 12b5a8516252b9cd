//! The kernel: commands in, a legal history out, and an answer for each.
#![tactic(auto)]

mod answers;
mod command;
mod course;
mod kernel;
pub mod laws;
mod obeying;
mod refusal;
mod room;

pub use answers::{Advance, Compacted, EnterRefused, ExregAnswer, NoThread};
pub use command::{Answer, Command};
pub use ipc_words::limits::{LAST_MOMENT, MAX_CALLS, MAX_ENTRIES};
pub use kernel::{Kernel, Limits};
pub use refusal::{LAST_REFUSAL, Refusal};
