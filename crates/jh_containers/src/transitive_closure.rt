//! Facts that are passed on along edges.

mod edges;
mod facts;
mod spreading;

pub use edges::Edges;
pub use facts::{Fact, FactList};
pub use spreading::spread;
