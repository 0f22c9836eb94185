//! Instances of the facts of a sequent, over nodes.
#![tactic(auto)]

pub mod closed_terms;
pub mod instance_count;
pub mod instances;
pub mod skolem_constants;
