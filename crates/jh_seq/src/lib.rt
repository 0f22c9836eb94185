//! Sequents, their splitting and how many there are, as definitions.
#![tactic(auto)]

pub mod counting;
pub mod sequent;
pub mod splitting;
