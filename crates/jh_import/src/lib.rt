//! Formulas put into a table: boxed ones, and nodes of another table.
#![tactic(auto)]

pub mod carrying;
pub mod entering;
