//! Propagation: all that follows from decisions, by instances and by equality, with the reason of each literal.

mod branch;
mod cutting;
mod following;
mod problem;
mod propagating;
mod settling;
mod speaking;
mod starting;
mod telling;

pub use branch::{Branch, Cause, Reason, decide};
pub use cutting::cut;
pub use problem::{Problem, pose};
pub use propagating::propagate_on;
pub use speaking::spoken;
pub use starting::begin;
