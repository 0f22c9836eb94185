//! The search for a ground model of instances.
#![tactic(auto)]

pub use jh_explanations;
pub use jh_propagation;

mod closing;
mod deciding;
mod descending;
mod returning;
mod searching;
mod turn;
mod weights;

pub use searching::{search, start_search};
pub use turn::{ClosedBranch, Found, Retreat, Searching, Turn};
pub use weights::Weights;
