//! A trace: the lines of the entries of a history, each ended by a newline, behind the line of its
//! version. And a part of a trace: a file that begins in the middle of a history, with its base.
#![tactic(auto)]

mod base_text;
mod fault;
mod laws;
mod line;
mod lines;
mod part;
mod part_fault;
mod part_reading;
mod part_writing;
mod reading;
mod sink;
mod version;
mod whole;
mod writing;

pub use base_text::BaseNumbers;
pub use fault::{LineFault, PutFault, TraceEnd};
pub use laws::{lines_are_of_their_part, parts_are_read_back};
pub use line::{PartLine, Stage, read_line};
pub use lines::{LineEnd, next_line};
pub use part::{Part, PartLines};
pub use part_fault::PartFault;
pub use part_reading::{PartRead, read_part};
pub use part_writing::put_part;
pub use reading::{TraceEnding, TraceLines, TraceRead, read_entries, read_trace};
pub use sink::EntrySink;
pub use version::{MAX_THREAD_NUMBER_OF_VERSION_1, TraceVersion};
pub use whole::put_trace;
pub use writing::TraceWriter;
