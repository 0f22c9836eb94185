//! Verification conditions over boxed formulas.

mod conditions;
mod entered;
mod hypotheses;
mod splitting;

pub use conditions::{count, wp};
pub use splitting::split;
