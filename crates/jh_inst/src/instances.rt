//! Instances of the facts of a sequent, and how many there can be: definitions, and their laws.

mod laws;

pub use laws::{clashing_instances_give_valid, made_at_most_counted, made_follows, made_is_local};
