//! Lists that share what they begin with.

mod chains;

pub use chains::{Chains, Link};
