//! The frames of the wire protocol: their spelling, and reading them from a stream in any pieces.
#![tactic(auto)]

mod cutting;
mod decoder;
mod decoding;
mod encoding;
mod fault;
mod fitting;
mod frame;
mod ipc;
mod ipcr;
mod judging;
mod kind;
mod laws;
mod pieces;
mod putting;
mod replies;
mod telling;
mod version;
mod window;
mod writing;

pub use decoder::Decoder;
pub use decoding::decode;
pub use encoding::{Encoder, encode};
pub use fault::FrameFault;
pub use frame::Frame;
pub use ipc::{IpcFrame, IpcParts};
pub use ipcr::{IpcrFrame, IpcrParts, Placed};
pub use judging::{Judgement, judge};
pub use kind::Side;
pub use laws::{
    any_pieces, none_begins_another, read_is_spelled, short_is_exact, spelled_is_read, told_stays,
};
pub use replies::ipcr_of;
pub use version::{CallEnd, WireVersion};
pub use writing::write_encoder;
