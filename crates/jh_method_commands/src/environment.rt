//! A program as lists, from which the commands of its methods are made.

mod choosing;
mod finding;
mod outline;

pub use outline::{Callable, Outline};
