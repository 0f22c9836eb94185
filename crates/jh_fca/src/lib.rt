//! The local form of a sequent and the elimination of derived fields, as definitions.
#![tactic(auto)]

pub mod cutting;
pub mod elimination;
pub mod local_form;
