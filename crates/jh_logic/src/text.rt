//! A program that a text spells has the shape of a source, and its names stand at places of their own.

mod laws;

pub use laws::{spelled_has_shape, spelled_is_accepted, spelled_is_placed, spelled_is_written};
