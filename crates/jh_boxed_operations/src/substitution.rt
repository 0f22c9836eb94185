//! Putting a term for a binder's variable, and a value for a free name, into boxed formulas; and the sort
//! of a value.

mod faults;
mod opening;
mod sorts;
mod substituting;

pub use faults::FormFault;
pub use opening::open;
pub use sorts::{StandsOnlyAt, names_are_one, sort_of};
pub use substituting::subst;
