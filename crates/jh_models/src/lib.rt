//! Ground models, propagation and search, as definitions.
#![tactic(auto)]

pub mod backjumping;
pub mod ground_models;
pub mod interpretations;
pub mod shortening;

pub use jh_cong;
pub use jh_derivation_rules::jh_import;
