//! Sources made from a number, and the line that sums up what was proved of one.
#![tactic(auto)]

mod method;
mod summing;
mod text;

pub use summing::{Counts, summary};
pub use text::source_of;
