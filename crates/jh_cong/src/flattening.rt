//! Terms and formulas of a table as plain nodes, so that congruence closure can be asked about them.

mod flat;
mod flattening;
mod helpers;

pub use flattening::flattened;
