//! The meaning of a source's formulas with all definitions opened, and the state that its methods name and write:
//! what these are, as definitions in `specs/`.
#![tactic(auto)]

pub mod state_names;
