//! What a run of a method of a source from the heap that a text spells comes to, as text.

mod finding;
mod running;
mod source;
mod unreturned;
mod writing;

pub use finding::has_method;
pub use source::run_method;
pub use unreturned::Unreturned;
