//! Whether a list of entries is a legal history, and where it is not.
#![tactic(auto)]

mod checker;
mod compacted;
mod incremental;
mod ongoing;

pub use checker::{Verdict, check};
pub use compacted::check_from;
pub use incremental::Checker;
