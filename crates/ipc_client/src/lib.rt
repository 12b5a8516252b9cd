//! A client of the server: the manual's calls over a pair of ports, one frame out and one frame in.
#![tactic(auto)]

mod answer;
mod buffering;
mod building;
mod client;
mod device;
mod error;
mod laws;
mod message;
mod message_fault;
mod patient;
mod reading;
mod received;
mod start;
mod timeout;
mod wire;
mod writing;

pub use answer::{Answer, Failure, Greeting, Registers};
pub use client::Client;
pub use error::ClientError;
pub use laws::{laid_out_strings_are_read, messages_fit_frames};
pub use message::{Buffers, Message};
pub use message_fault::{BufferFault, MessageFault};
pub use patient::{FIRST_WAIT, PATIENCE, PatientStream, Untold, Waiter, await_end, is_late};
pub use reading::read_frame;
pub use received::Received;
pub use start::Start;
pub use timeout::Timeout;
pub use writing::write_frame;
