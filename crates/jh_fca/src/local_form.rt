//! The local form of a sequent: what the local prover decides in its place.

mod laws;

pub use laws::{local_has_shape, local_is_valid};
