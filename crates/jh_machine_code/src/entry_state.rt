//! Whether the formulas of steps may read the state at their method's entry.

mod laws;
mod recalling;

pub use laws::steps_that_recall_nothing;
pub use recalling::steps_recall;
