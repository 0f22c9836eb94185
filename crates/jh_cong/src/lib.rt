//! Congruence closure over the terms of a table.
#![tactic(auto)]

pub mod classes;
pub mod flattening;
