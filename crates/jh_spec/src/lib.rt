//! The parser of formulas and specifications.
#![tactic(auto)]

pub mod nesting;
pub mod parser;
