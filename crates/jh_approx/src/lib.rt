//! The query of a sequent, as definitions.
#![tactic(auto)]

pub mod definition;
pub mod free_name_tests;

pub use jh_derivation_rules::jh_reach;
pub use jh_normal_forms;
