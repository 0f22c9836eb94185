//! Derivations that begin at a sequent and go by its instances.
#![tactic(auto)]

pub mod derivations;
pub mod instance_steps;

pub use jh_refutation_proofs::jh_search;
