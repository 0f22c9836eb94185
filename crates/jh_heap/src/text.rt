//! The text of heaps, read and written.

mod draft;
mod finishing;
mod outline;
mod reading;
mod rules;
mod taking;
mod writing;

pub use outline::{Holder, Outline};
pub use reading::{HeapError, read_heap};
pub use writing::{add_cell, write_heap};
