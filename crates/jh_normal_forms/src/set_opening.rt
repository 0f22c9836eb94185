//! Sets opened in formulas that are nodes of a table: what is said of sets is said of each object.

mod joining;
mod laws;
mod opening;
mod saying;

pub use laws::opening_keeps_meaning;
pub use opening::sets_opened;
