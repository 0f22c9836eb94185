//! Definitions opened each once, in an order in which each stands behind what it reads.

mod opening;

pub use opening::{Definition, opened};
