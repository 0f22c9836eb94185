//! Rewriting nodes: substitution, opened binders, exchanged parts.
#![tactic(auto)]

pub mod exchange;
pub mod instantiation;
pub mod opening;
pub mod rewriting;
pub mod simultaneous;
