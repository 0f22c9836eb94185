//! What is written of a heap is read as that heap, and what is read is a heap.

mod laws;

pub use laws::{what_is_read_is_a_heap, what_is_written_is_read};
