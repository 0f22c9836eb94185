//! Steps of a derivation that close a branch by equality.

mod clashing;
mod deducing;
mod edges;
mod gathering;
mod graph;
mod paths;

pub use clashing::close_by_equality;
