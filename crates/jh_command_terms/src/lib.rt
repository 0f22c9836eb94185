//! Guarded commands over nodes, and the terms and checks of expressions.
#![tactic(auto)]

pub mod command;
pub mod terms;
