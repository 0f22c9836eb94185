//! The formulas of a program with all names resolved and all definitions opened, as nodes of one table.

mod classes;
mod closing;
mod faults;
mod formulas;
mod gathering;
mod methods;
mod places;
mod statements;
mod this;
mod unfolding;

pub use faults::{VarsError, VarsRefused};
pub use unfolding::{Parts, Unfolded, unfold};
