//! The parser of programs.
#![tactic(auto)]

pub mod expressions;
pub mod programs;
pub mod statements;
