//! The calls over boxed formulas.
#![tactic(auto)]

pub mod formulas;
pub mod interpretations;
pub mod sequents;
pub mod state_lists;

pub use jh_effects;
pub use jh_effects::jh_unfolding;
pub use jh_prove::jh_instantiation;
