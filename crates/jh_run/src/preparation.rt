//! All that a run needs of a program.

mod ready;

pub use ready::{Ready, ready_of};
