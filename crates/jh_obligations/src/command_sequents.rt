//! The sequents of the weakest precondition of a command, or that there are too many.

mod fault;
mod goals;

pub use fault::GoalsFault;
pub use goals::{MOST_SEQUENTS, sequents_of};
