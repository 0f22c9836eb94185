//! Instances of the facts of a sequent, as definitions.
#![tactic(auto)]

pub mod instances;
pub mod plain_formulas;
