//! What may be let go of a quiet history: which calls met which, by the last calls of the live
//! threads; which entries a compaction keeps for that; and the base that stands beside them.
#![tactic(auto)]

mod base;
mod found;
mod kept;
pub mod laws;
mod making;
mod noting;
mod partner_base;
mod partners;
mod room;
mod saying;

pub use base::Base;
pub use kept::KeptPartners;
pub use noting::Keeping;
pub use partner_base::base_of;
pub use partners::{Joined, Partner, Partners};
pub use room::BaseRoom;
