//! Whether the entries of several files are one history: those of a trace, and of the parts behind
//! it.
#![tactic(auto)]

mod behind;
mod chain;
mod difference;
mod guide;
mod same;
mod verdict;
mod witness;

pub use behind::{Put, put_behind, put_behind_parts};
pub use chain::Chain;
pub use difference::{Difference, lines_before};
pub use verdict::{Behind, ChainVerdict, chain_behind, check_chain, check_parts};
