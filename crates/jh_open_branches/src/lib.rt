//! The branches of a derivation that are open, with their facts, and the test that a name is fresh.
#![tactic(auto)]

mod branches;
mod facts;
mod fresh;

pub use branches::{Branches, Waiting};
pub use facts::FactList;
pub use fresh::Other;
