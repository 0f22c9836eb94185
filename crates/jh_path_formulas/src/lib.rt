//! What is said of ways along a list of fields, as nodes of a table.
#![tactic(auto)]

mod ways;

pub use ways::{in_forest, leaves_out, not_null, stops_at};
