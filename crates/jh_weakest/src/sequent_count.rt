//! How many sequents a weakest precondition is split into.

mod capped;
mod counting;
mod forms;
mod goals;
mod names;
mod tally;

pub use counting::{MOST_NESTED, count};
pub use goals::MOST_NODES;
