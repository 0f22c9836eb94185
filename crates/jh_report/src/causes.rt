//! The lines that say why a sequent is unproved.

mod digits;
mod local;
mod pieces;
mod refuted;
mod too_large;

pub use local::{MOST_SHOWN, add_budget, add_open, add_too_many};
pub use refuted::add_refuted;
pub use too_large::add_too_large;
