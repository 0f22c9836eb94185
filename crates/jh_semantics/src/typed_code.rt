//! The code of methods: names resolved, expressions sorted by the type of their values, formulas by their numbers.

mod code;
mod stmts;

pub use code::{AnyCode, NumberCode, ObjectCode, TruthCode};
pub use stmts::{CallCode, Claim, Code, Local, MethodCode, Target};
