//! What may come next of a history, by the rules of the manual and the slots of its threads; who
//! waits for whom, and until when: queues and candidates beside the slots, which each entry of a
//! history changes in place, so that what comes next is found without a walk.
#![tactic(auto)]

mod admission;
mod candidates;
pub mod finding;
mod keys;
mod last;
mod meetings;
mod next;
mod phases;
mod queue;
mod queues;
mod read;
mod resting;
mod row;
mod rules;
mod transfers;
mod waiting;

pub use admission::is_free;
pub use keys::due_after;
pub use meetings::reached;
pub use phases::{is_in_receive_phase, is_in_send_phase};
pub use queue::{Queue, Wait};
pub use queues::Waits;
pub use read::{follows, next_output};
pub use resting::waits;
pub use waiting::Waiting;
