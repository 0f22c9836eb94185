//! The commands of a call, over the nodes of a table.

mod after;
mod before;
mod called;
mod calls;
mod contracts;
mod keeping;
mod results;
mod terms;
mod turns;

pub use called::{Called, Surroundings};
pub use calls::push_call;
