//! What heap texts of a program are read by, and where memory has what they give.

mod classes;
mod members;
mod outlines;
mod places;

pub use outlines::outline_for;
pub use places::places_of;
