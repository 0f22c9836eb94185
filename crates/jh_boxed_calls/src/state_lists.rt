//! The names of the state that methods write and name.

mod naming;

pub use naming::{modified_names, written_names};
