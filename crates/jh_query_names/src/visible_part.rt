//! What a query can say of a formula, as a node of a table.

mod folding;
mod leaves;
mod memo;
mod showing;

pub use memo::{Made, Memo, Signed};
pub use showing::shown;
