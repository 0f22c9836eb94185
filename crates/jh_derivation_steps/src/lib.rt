//! What a step of a derivation needs and adds, over nodes.
#![tactic(auto)]

pub mod closedness;
pub mod premises;

pub use jh_derivation_rules;
pub use jh_substitution;
