//! Entering boxed formulas into a table of nodes.

mod entering;
mod guarded;

pub use guarded::{enter, enter_field, enter_formula, enter_int, enter_set, enter_term};
