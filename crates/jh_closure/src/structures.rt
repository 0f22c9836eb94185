//! Structures, in which operations are functions of which nothing else is known, and the literals that they meet.

mod laws;
mod literal;

pub use laws::more_is_not_met;
pub use literal::{Literal, literals_can_be_shared};
