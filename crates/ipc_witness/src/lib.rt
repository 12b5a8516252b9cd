//! The plan of a history that ends as a part says.
#![tactic(auto)]

mod allotment;
mod budget;
mod messages;
mod plan;
mod wanted;
mod windows;

pub use allotment::Allotment;
pub use budget::{Budget, OTHERS};
pub use messages::Pair;
pub use plan::{Plan, Receipt, Step, make_plan};
pub use wanted::Wanted;
