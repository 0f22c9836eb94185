//! Weakest preconditions of commands over the nodes of a table.

mod renaming;
mod standing;
mod substituting;
mod weakest;

pub use renaming::rename;
pub use substituting::substitute;
pub use weakest::{MOST_NESTED, wp_in};
