//! The truth of formulas and the values of terms in an interpretation.
#![tactic(auto)]

mod answer;
mod bound;
mod evaluating;
mod forest;
mod graph;
mod nodes;
mod objects;
mod standing;
mod world;

pub use answer::SemError;
pub use nodes::{member_of_node, number_of_node, object_of_node, truth_of_node};
pub use world::World;
