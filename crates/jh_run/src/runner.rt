//! Runs methods of a program on heaps.

mod runner;
mod scalars;

pub use runner::{Answered, run_on};
