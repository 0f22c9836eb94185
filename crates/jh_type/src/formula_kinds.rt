//! Kinds of formulas, and the faults in them, over tables of what names are declared as.

mod binding;
mod fields;
mod formulas;
mod naming;
mod operators;
mod shapes;
mod spelling;
mod spot;

pub use formulas::{form_kind, truth_faults};
pub use shapes::equation_fields;
pub use spelling::{field_named, halves, state_named, state_spelled};
pub use spot::Spot;
