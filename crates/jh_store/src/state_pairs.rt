//! What formulas see in a run: the state now, and that at the method's entry.

mod moment;

pub use moment::{Home, Moment};
