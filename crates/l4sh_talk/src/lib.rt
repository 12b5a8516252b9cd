//! The line of a call that people type, field by field. And a thread of a live server, from a
//! keyboard or a pipe: what people type, the call that is made of it, and what is said to its
//! answer.
#![tactic(auto)]

mod asking;
mod calling;
mod ending;
mod faults;
mod fields;
mod quoting;
mod reading;
mod request;
mod said;
mod session;
mod spelling;
mod telling;
mod versions;

pub use calling::{CallFault, THREAD, call_line};
pub use ending::Ending;
pub use faults::{BadWord, CONTROL, LABEL, NUMBERS, ONCE, SIZES, WordFault, comes_again};
pub use quoting::words_of;
pub use session::talk_to;
pub use spelling::{read_control, read_thread};
pub use telling::tell_error;
