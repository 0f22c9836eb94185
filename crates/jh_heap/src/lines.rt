//! The lines of a heap text.

mod bytes;
mod lines;
mod numbers;

pub use bytes::split;
pub use lines::{Line, Value, line_of};
