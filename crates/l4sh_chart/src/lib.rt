//! What a sequence chart of a history shows: a column for each thread, a row for each entry that
//! shows something, what threads wait for, and which rows come again.
#![tactic(auto)]

mod bars;
mod calls;
mod events;
mod folding;
mod lanes;
mod maker;
mod notes;
mod order;
mod scene;
mod selection;
mod shapes;
mod told;

pub use calls::Wait;
pub use events::Mark;
pub use folding::Fold;
pub use lanes::{Lane, Place, lanes_of, turn_lanes, turns_upto};
pub use maker::SceneMaker;
pub use scene::{Column, Row, Said, Scene, Turn};
pub use selection::{Emptiness, Selection};
pub use told::ToldCall;
