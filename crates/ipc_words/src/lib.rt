//! The words of the L4 X.2 manual: message tags, thread ids, times, error codes and control words.
#![tactic(auto)]

mod control;
mod ipc_error;
pub mod laws;
pub mod limits;
mod msg_tag;
mod period;
mod tag_fields;
mod thread_id;
mod timeouts;
mod version;

pub use control::{Control, MaskedControl};
pub use ipc_error::{ErrorKind, IpcError, Phase};
pub use msg_tag::MsgTag;
pub use period::Period;
pub use tag_fields::TagFields;
pub use thread_id::{ThreadId, ThreadIdKind};
pub use timeouts::Timeouts;
pub use version::next_version;
