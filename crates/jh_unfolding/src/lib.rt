//! Formulas of a program with all definitions opened.
#![tactic(auto)]

pub mod unfolder;
pub mod visitor;
