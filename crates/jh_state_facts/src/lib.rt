//! What is said of the state: schemas of facts, well-formedness, and what has changed.
#![tactic(auto)]

pub mod changes;
pub mod schemas;
pub mod well_formedness;
