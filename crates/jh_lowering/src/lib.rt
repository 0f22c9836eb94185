//! Code with its names resolved and sorted by type, lowered from the statements of a source.
#![tactic(auto)]

mod calls;
mod context;
mod expressions;
mod lowering;
mod making;
mod methods;
mod naming;
mod numbers;
mod operators;
mod parts;
mod targets;
mod truths;

pub use context::Context;
pub use expressions::expr_code;
pub use methods::method_code;
pub use parts::labelled_claim;
