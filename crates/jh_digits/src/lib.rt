//! Linear systems over the natural numbers, and their solutions.
#![tactic(auto)]

pub mod solver;
pub mod systems;
