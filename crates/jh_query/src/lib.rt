//! Queries of sets, elements, numbers and flags, and when one is true.
#![tactic(auto)]

pub mod partial_truth;
pub mod queries;
