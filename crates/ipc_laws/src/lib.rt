//! The laws of histories: theorems about every legal history, each a public function whose contract
//! is its statement.
#![tactic(auto)]

pub mod laws;
