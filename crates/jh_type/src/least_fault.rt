//! The least of several faults.

mod three;

pub use three::least_of_three;
