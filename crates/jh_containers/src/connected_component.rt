//! What is reached from some numbers along rows that share one.

mod index;
mod reaching;

pub use reaching::{Known, reach, shares};
