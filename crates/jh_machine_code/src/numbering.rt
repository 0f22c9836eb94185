//! The code of methods over the numbers of names.

mod exprs;
mod numbers;
mod objects;
mod texts;
mod truths;

pub use exprs::any_expr;
pub use numbers::number_expr;
pub use objects::object_expr;
pub use texts::{name_number, text_number};
pub use truths::truth_expr;
