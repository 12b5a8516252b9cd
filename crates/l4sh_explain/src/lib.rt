//! What codes and words of the manual mean, and words made of what people type. And why a line of a
//! script or of a trace is bad: its first fault, as a value. A [`Reason`] prints as the words that
//! people read.
//!
//! ```text
//! // field 2, thread: wanted is an id, NUMBER.VERSION, as 1.1; not 1
//! reason_of(alloc, Grammar::Script, b"take 1")?
//! ```
#![tactic(auto)]

mod codes;
mod families;
mod fields;
mod grammars;
mod laws;
mod periods;
mod reasons;
mod rules;
mod shapes;
mod spellings;
mod tags;
mod text;
mod times;
mod told;
mod whole;
mod words;

pub use codes::{meaning_behind, meaning_of};
pub use fields::read_number;
pub use grammars::{Field, FieldKind, Grammar, LineName};
pub use laws::{good_trace_lines_are_entries, rules_are_the_normal_form};
pub use periods::{answer_period, tell_period};
pub use reasons::{BadField, Reason, Wanted, reason_of, reason_text};
pub use rules::CallRule;
pub use tags::{FUNCTION_FAILED, TagRequest, answer_tag, tell_tag};
pub use text::{Printable, Shown, wanted_hex};
pub use times::{TimeFault, TimeUnit, period_of, read_period, read_time};
pub use told::Told;
pub use whole::LineFault;
pub use words::explain;
