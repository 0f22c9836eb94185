//! The terms of expressions of code and their checks, as nodes of a table.

mod checks;
mod names;
mod numbers;
mod objects;
mod truths;
mod values;

pub use checks::{CheckNode, push_not_null};
pub use names::{field_node, number_node, object_node, truth_node};
pub use numbers::number_term;
pub use objects::{check_receiver, object_term};
pub use truths::truth_term;
pub use values::{target_term, value_term};
