//! The law that the test of equality of trees decides equality.

mod laws;

pub use laws::equality_is_decided;
