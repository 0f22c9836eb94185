//! The names of a query as lists of nodes, one for each sort.

mod listed;
mod listing;
mod sorting;

pub use listed::Listed;
pub use listing::names_of;
