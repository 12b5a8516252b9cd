//! Many connections over pieces of bytes, and one kernel.
#![tactic(auto)]

mod connection;
mod connections;
mod due;
mod event;
mod exchange;
mod feeding;
mod laws;
mod marked_kernel;
mod pending;
mod progress;
mod running;
mod service;

pub use event::{Event, Reply};
pub use exchange::Exchange;
pub use laws::{
    calls_are_accepted, happen_once, legal_stays, out_grows, output_apart, pieces_join,
};
pub use progress::{ConnectRefused, Progress};
