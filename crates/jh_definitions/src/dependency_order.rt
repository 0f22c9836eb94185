//! The definitions of a program, in an order in which they can be opened.

mod collecting;
mod finding;
mod ordering;
mod rows;

pub use ordering::{Opening, in_order};
