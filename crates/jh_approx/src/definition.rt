//! What stands for a sequent where it is decided by regions.

mod laws;

pub use laws::{linked_is_least, queries_are_well_formed, refuted_is_false, true_query_is_valid};
