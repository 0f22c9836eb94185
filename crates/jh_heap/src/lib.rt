//! The text of heaps, read and written.
#![tactic(auto)]

pub mod lines;
pub mod object_bounds;
pub mod text;
