//! What decided literals say of instances by their connectives alone, over the nodes of a table.

mod decided;
mod falses;
mod forms;
mod found;
mod laws;
mod looking;
mod occurring;
mod reasons;
mod sets;
mod trail;
mod truths;

pub use decided::{Decided, opposite};
pub use falses::is_false;
pub use laws::{decided_is_settled, forced_stands, more_say_more, others_say_nothing};
pub use looking::{Looked, look};
pub use occurring::Ground;
pub use reasons::reason;
pub use trail::Trail;
pub use truths::is_true;
