//! The operators that stand between the operands of a formula, and how loosely each binds.

mod infix;

pub use infix::operator;
