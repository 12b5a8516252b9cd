//! What is kept for each thread number, so that the outcome of its call is handed out without
//! memory and without the history.
#![tactic(auto)]

mod desk;
mod desks;
mod finished;
mod kept;
mod message;

pub use desks::Desks;
pub use finished::Finished;
pub use kept::KeptDesks;
pub use message::Prepared;
