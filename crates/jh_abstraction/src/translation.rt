//! The query of facts and a goal that are nodes of a table.

mod atoms;
mod conds;
mod numbers;
mod places;
mod querying;
mod room;
mod sets;
mod standing;

pub use querying::query_from;
pub use room::MOST_PARTS;
