//! Sequents, as the splitting of a formula gives them and as provers take them.

mod sequent;

pub use sequent::{Hyp, Sequent, sequents_can_be_shared};
