//! A table of terms, fields and formulas in which each part stands once and is named by its number.

mod boxed;
mod codes;
mod facts;
mod laws;
mod listing;
mod measures;
mod nodes;
mod parts;
mod pools;
mod shapes;
mod sorts;

pub use boxed::Table;
pub use facts::Facts;
pub(crate) use listing::Arena;
pub use measures::MOST_LEVELS;
pub use shapes::{Own, Shape};
