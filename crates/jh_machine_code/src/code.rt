//! Code over the numbers of names and of methods, and the nodes of formulas: what the machine runs.

mod body;
mod destination;
mod step;

pub use body::Body;
pub use destination::Destination;
pub use step::{CallStep, GhostField, Step};
