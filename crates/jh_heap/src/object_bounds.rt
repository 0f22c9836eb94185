//! The heaps and arguments that texts spell are of the objects from 0 to the greatest.

mod laws;

pub use laws::what_is_read_is_inside;
