//! The machine of a run: what is to be done, and each statement without statements in it.
#![tactic(auto)]

pub mod continuation;
pub mod ghosts;
pub mod locals;
pub mod machine;
pub mod slots;
pub mod writes;
