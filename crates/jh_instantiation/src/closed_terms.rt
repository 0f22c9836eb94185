//! The closed terms for objects of formulas that are nodes of a table, each once, in the order in which they first stand.

mod adding;
mod terms;

pub use adding::add_closed_terms;
pub use terms::Terms;
