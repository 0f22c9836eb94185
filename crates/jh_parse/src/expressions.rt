//! The parser of expressions, of calls and of what is assigned to.

mod calls;
mod expressions;
mod operators;

pub use calls::{call, call_after, rhs, target_of};
pub use expressions::{expression, reads};
