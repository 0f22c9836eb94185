//! The trail of a search, and what follows from it.
#![tactic(auto)]

pub mod propagation;
pub mod trail;
