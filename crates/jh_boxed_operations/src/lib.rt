//! Substitution and comparison over boxed formulas.
#![tactic(auto)]

pub mod comparison;
pub mod equality;
pub mod substitution;
