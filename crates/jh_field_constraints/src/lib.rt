//! Derived fields eliminated from sequents whose formulas are nodes of a table.
#![tactic(auto)]

mod constraints;
mod exchanging;
mod fields;
mod formulas;
mod memo;
mod naming;
mod reading;
mod saying;
mod stepping;

pub use fields::derived;
pub use stepping::{NodeSequent, eliminate};
