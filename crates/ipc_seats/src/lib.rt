//! The kernel with the seats that tie callers to its one history, and for each connection a box,
//! whose pen is handed from thread to thread.
#![tactic(auto)]

mod blank_log;
mod copying;
mod entered;
mod errands;
mod events;
mod gift_log;
pub mod laws;
mod not_given;
mod noting;
mod numbers;
mod part;
mod post_box;
mod rest;
mod roll;
mod seated;
mod upkeep;

pub use blank_log::BlankLog;
pub use entered::Entered;
pub use errands::Errands;
pub use events::{Event, Gave, Gift};
pub use gift_log::GiftLog;
pub use not_given::NotGiven;
pub use numbers::Numbers;
pub use part::{Behind, HeldPart};
pub use post_box::{Loaded, PostBox, Work};
pub use rest::Rest;
pub use roll::Roll;
pub use seated::{Answered, CallSeat, Locked, TakeSeat, Taken};
pub use upkeep::Upkeep;
