//! The operators of formulas: what stands ahead, and which binds closer.
#![tactic(auto)]

pub mod lookahead;
pub mod operators;
