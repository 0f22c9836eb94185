//! Updates that change nothing dropped from formulas that are nodes of a table.

mod dropping;
mod laws;

pub use dropping::dropped;
pub use laws::dropping_keeps_meaning;
