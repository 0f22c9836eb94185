//! A term put for the variable of a binder in small formulas: their parts are met where they stand, and no answers are noted.

mod leaves;
mod opening;
mod walking;

pub use opening::open;
