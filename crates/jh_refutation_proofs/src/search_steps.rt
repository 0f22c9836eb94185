//! Steps of a derivation that close all branches of a search, where the instances are facts.

mod bench;
mod exposing;
mod falsity;
mod growing;
mod leaf;
mod literals;
mod testing;
mod tree;
mod writing;

pub use bench::Bench;
pub use tree::{Joint, Tree, tree_of};
pub use writing::write_tree;
