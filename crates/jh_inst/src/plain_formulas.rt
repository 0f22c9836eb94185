//! That instances of facts in negation normal form are And and Or over atoms and negated atoms.

mod laws;

pub use laws::{entries_are_plain, instances_are_literals, normal_is_plain};
