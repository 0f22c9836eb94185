//! The commands of statements that have no statement inside, and of checks.
#![tactic(auto)]

pub mod checks;
pub mod simple_statements;

pub use jh_command_terms;
