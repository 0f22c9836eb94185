//! What a run writes: names and fields, values to their destinations, and new objects.

mod destinations;
mod objects;
pub mod writes;

pub use destinations::{assign, destination_object, put, put_field, put_name};
pub use objects::{create, is_in};
