//! The sequents of a formula that is a node of a table.
#![tactic(auto)]

mod closing;
mod edges;
mod facts;
mod forests;
mod goals;
mod lists;
mod sequent;
mod splitting;

pub use sequent::{NodeHyp, NodeSequent};
pub use splitting::{Sequents, split_in};
