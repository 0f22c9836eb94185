//! Values of nodes at a moment of a run, and ghost variables that get them.

mod free;
mod ghosts;

pub use free::is_free;
pub use ghosts::{NodeValue, node_object, node_truth, node_value, store_value, store_value_at};
