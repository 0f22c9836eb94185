//! Derivations of refutations.
#![tactic(auto)]

pub mod equality_steps;
pub mod search_steps;

pub use jh_cong;
pub use jh_search;
pub use jh_search::jh_propagation;
