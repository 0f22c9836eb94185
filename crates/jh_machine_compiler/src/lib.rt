//! Methods as the machine runs them, made from the code of a source.
#![tactic(auto)]

mod bodies;
mod calls;
mod destinations;
mod formulas;
mod ghosts;
mod simple;
mod source;
mod steps;

pub use bodies::bodies_of;
pub use source::Source;
