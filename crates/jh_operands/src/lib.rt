//! Expressions of code over the numbers of names, and their values in the memory of a run.
#![tactic(auto)]

pub use jh_store;

mod exprs;
mod fault;
mod numbers;
mod objects;
mod reads;
mod truths;
mod values;

pub use exprs::{AnyExpr, NumberExpr, ObjectExpr, TruthExpr};
pub use fault::Fault;
pub use numbers::number_value;
pub use objects::{dereference, object_value, receiver_value};
pub use truths::truth_value;
pub use values::{Scalar, any_value};
