//! Weakest preconditions over nodes, and how many sequents they give.
#![tactic(auto)]

pub mod precondition;
pub mod sequent_count;

pub use jh_command_terms;
