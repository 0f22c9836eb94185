//! The guarded command of a method of a source, boxed.

mod named;
mod outlined;
mod source;

pub use named::method_name;
pub use source::of_method;
