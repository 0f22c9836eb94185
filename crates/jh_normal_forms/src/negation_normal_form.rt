//! Normal forms of formulas over the nodes of a table: without labels, and with negations before atoms alone.

mod memo;
mod negating;
mod unlabelling;

pub use negating::negation_normal;
pub use unlabelling::{same_but_labels, unlabelled};
