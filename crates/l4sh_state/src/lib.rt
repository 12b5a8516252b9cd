//! What a history says of each live thread: what it does, for whom it waits, and each deadlock. And
//! what the views of a trace share: which threads live and in which space, as whom a message is
//! shown, which threads were asked for, why a phase failed, and moments as times of day.
#![tactic(auto)]

mod building;
mod causes;
mod courses;
mod doing;
mod drops;
mod lists;
mod spaces;
mod start;
mod state;
mod telling;
mod threads;
mod timed;
mod times;
mod waits;

pub use building::slots_of;
pub use causes::{cause_of, cause_of_entry, short_cause_of_entry};
pub use courses::{Course, PLACES, course_from};
pub use doing::{Doing, doing_of};
pub use drops::{Dropped, Drops, drops_of};
pub use lists::read_threads;
pub use spaces::{ShownAs, Spaces};
pub use start::Start;
pub use state::{State, state_in, state_of};
pub use telling::tell_state;
pub use timed::timed_state;
pub use times::{MomentText, Times};
pub use waits::{course_of, waits_of};
