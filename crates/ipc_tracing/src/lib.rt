//! What the workers of a server share: the kernel, the clock, the paths and the connections. And
//! the worker of the trace: its files, and those who follow it.
#![tactic(auto)]

mod began;
mod exit;
mod followers;
mod following;
mod host;
mod meter;
mod part_answer;
mod parts;
mod paths;
mod saying;
mod server;
mod shared_blocks;
mod shared_trace;
mod trace_disk;
mod trace_fault;
mod trace_files;
mod tracing;

pub use began::{began_text, start_of};
pub use exit::Exit;
pub use following::follow;
pub use host::{Bound, Host};
pub use part_answer::answer_with_part;
pub use paths::{Door, Listener, control, listen, remove, remove_door};
pub use saying::{NO_MEMORY, say};
pub use server::Server;
pub use shared_blocks::SharedBlocks;
pub use shared_trace::SharedTrace;
pub use trace_disk::TraceDisk;
pub use trace_fault::{ToldFault, TraceFault};
pub use trace_files::{FilePort, TraceFiles};
pub use tracing::Trace;
