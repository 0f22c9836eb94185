//! Linear systems over the natural numbers, solved exactly by binary digits.

mod counting;
mod exploring;
mod following;
mod marking;
mod refusing;
mod solving;
mod space;
mod sweeping;
mod tables;
mod tracing;

pub use crate::systems::{Digits, Solved, System, holds};
pub use counting::nodes;
pub use solving::solve;
