//! What is told of a trace: its script, a state, counts, a chart, and its entries in words, each
//! printed as the trace is read.
#![tactic(auto)]

mod chart;
mod count_text;
mod counter;
mod counting;
mod counts;
mod event;
mod exit;
mod finding;
mod follow;
mod follower;
mod json;
mod judging;
mod last_state;
mod looking;
mod notes;
mod row;
mod selection;
mod span;
mod tally;
mod telling;
mod times;
mod walk;

pub use chart::{chart_read, chart_reason, chart_trace, options_reason};
pub use exit::{ChartFault, Exit};
pub use follow::{
    Unselected, follow_entries, follow_parts, follow_trace, selection_of, tell_entry,
};
pub use follower::Follower;
pub use last_state::{past_the_end, state_text};
pub use looking::{Look, look_at_read, look_at_trace, print};
