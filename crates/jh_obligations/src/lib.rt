//! The sequents that a program owes.
#![tactic(auto)]

pub mod command_sequents;
pub mod program_sequents;
