//! Heaps as lists.

mod cells;

pub use cells::{Args, Cell, Heap};
