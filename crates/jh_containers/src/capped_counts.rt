//! Counts that stay at the greatest of 128 bits.

mod capped;
mod columns;

pub use capped::{plus, times};
pub use columns::column_count;
