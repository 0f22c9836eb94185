//! The types of formulas, their trees without memory, and what they mean.
#![tactic(auto)]

pub use jh_name;

mod form;
mod laws;
mod mark;

pub use form::{FieldTerm, Formula, IntTerm, SetTerm, Term, Value};
pub use laws::{
    closed_means_the_same, divides_says, names_decide_meaning, terms_can_be_shared,
    terms_stay_inside,
};
pub use mark::{Mark, MarkKind};
