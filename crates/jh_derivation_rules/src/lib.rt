//! Derivations: their steps, the rules that the steps have to meet, and that what is derived so is valid.
#![tactic(auto)]

pub use jh_reach;
pub use jh_reach::jh_import;

mod laws;
mod step;

pub use laws::{closing_is_exact, closing_shows_validity};
pub use step::{Base, DerivStep, Derivation, derivations_can_be_shared};
