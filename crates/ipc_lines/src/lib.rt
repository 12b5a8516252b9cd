//! The one spelling of each entry of a history, and of each outcome, as a line of text.
//!
//! A line is its fields with one space between each two; its newline is not part of it. Numbers are
//! decimals without leading zeros. HEX is `0x` and lower-case digits without leading zeros; 0 is
//! `0x0`. An id is `nil`, `any` or `local`; `number.version` in decimal where the low six bits of
//! its word are not all zero; else HEX. No line of an entry has more than
//! [`ipc_words::limits::MAX_LINE_BYTES`] bytes.
//!
//! | Entry | Line |
//! |---|---|
//! | At | `at MOMENT` |
//! | Opened | `opened ID SPACE` |
//! | Called | `called N CALL`, CALL as of [`call_text`] |
//! | Exreg | `exreg ID DEST CONTROL`, DEST an id, CONTROL in HEX |
//! | Broke | `broke ID` |
//! | Moved | `moved N BYTES` |
//! | Began | `began N M` |
//! | Turned | `turned M ID` |
//! | Ended | `ended N M` |
//! | Overflowed | `overflowed N M OFFSET` |
//! | Aborted | `aborted N M BYTES` |
//! | Failed | `failed N CODE`, CODE in HEX |
#![tactic(auto)]

mod call_reading;
mod calls;
mod entries;
mod fields;
mod items;
mod laws;
mod lists;
mod numbers;
mod outcomes;
mod readable;
mod reading;
mod scalars;

pub use call_reading::{read_call, read_timeouts};
pub use calls::call_text;
pub use entries::{entry_line, write_entry};
pub use fields::line_fields;
pub use items::{read_buffers, read_strings, read_words};
pub use laws::{
    entries_have_lines_of_their_own, lines_are_within_the_limit, lines_hold_no_newline,
    lines_split_into_fields,
};
pub use numbers::{read_decimal, read_hex, read_id};
pub use outcomes::{outcome_line, write_outcome};
pub use readable::{are_buffers, are_strings, are_words, call_is_readable, entry_is_readable};
pub use reading::{LineFault, read_entry};
pub use scalars::{HexText, IdText, write_decimal, write_hex, write_id};
