//! The sequents of all methods of a source.

mod fault;
mod laws;
mod listed;
mod owners;
mod single;
mod source;

pub use fault::LogicError;
pub use laws::{owed_is_one, owed_is_sound, too_many_is_exact};
pub use listed::sequents;
pub use single::method_sequents;
pub use source::obligations;
