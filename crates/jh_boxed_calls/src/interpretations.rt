//! The truth of formulas and the values of terms in an interpretation that lists spell.

mod doors;
mod interp;
mod listed;
mod slots;

pub use doors::{member, number, object, truth};
pub use interp::{FieldValue, Interp};
pub use jh_sem::SemError;
