//! Formulas as nodes of a table in which each part stands once, and makers of nodes.
#![tactic(auto)]

pub mod makers;
pub mod table;

pub use jh_boxed;
