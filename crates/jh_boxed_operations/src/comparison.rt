//! Comparing boxed formulas: whether two are the same past their labels, and whether one is the other with
//! some occurrences of a value exchanged for another.

mod comparing;
mod exchange;
mod laws;
mod marks;
mod numbers;
mod replacing;
mod same_formulas;

pub use laws::exchange_keeps_meaning;
pub use replacing::replaces;
pub use same_formulas::same;
