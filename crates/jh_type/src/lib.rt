//! The type checker.
#![tactic(auto)]

pub mod checker;
pub mod formula_kinds;
pub mod least_fault;
pub mod method_bodies;
