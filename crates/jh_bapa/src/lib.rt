//! Queries decided by regions, and what is answered.
#![tactic(auto)]

pub mod answers;
pub mod decision;
