//! What the statements of a method assign and call themselves.

mod assigning;
mod effects;
mod gathering;

pub use effects::{Callee, Effects, Write};
pub use gathering::effects_of;
