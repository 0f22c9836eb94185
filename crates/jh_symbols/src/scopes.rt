//! Types of expressions, kinds of formulas, and the faults in both, over tables of what names are declared as.

mod calls;
mod expressions;
mod firsts;
mod looking;
mod scope;

pub use calls::{call_place, call_type};
pub use expressions::{as_boolean, class_spelled, expr_type};
pub use firsts::Firsts;
pub use looking::{Lookups, Member, MemberEntry, Members, state_in};
pub use scope::{ScopeTable, Undo, class_type, kind_of_word, type_of};
