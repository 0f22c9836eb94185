//! Classes of numbers, joined by merges that are kept in their order and can be taken back.

mod climbing;
mod forest;
mod merge;

pub use forest::Forest;
pub use merge::{Cause, Joint, Merge, Why};
