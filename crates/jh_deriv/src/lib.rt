//! Derivations replayed over the nodes of a table: whether each step meets its rule and each branch is closed.
#![tactic(auto)]

pub use jh_derivation_steps;
pub use jh_import;
pub use jh_normal_forms;

mod entering;
mod replaying;
mod suiting;

pub use jh_derivation_rules::{Base, DerivStep, Derivation};
pub use jh_open_branches::{Branches, FactList, Waiting};
pub use replaying::{Replayed, replay};
