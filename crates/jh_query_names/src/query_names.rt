//! The names that a query has for the parts of formulas, gathered from the nodes of a table.

mod found;
mod gathering;
mod kinds;

pub use found::Found;
pub use gathering::gather;
