//! The names that the body of a loop changes: of the state, and of the locals.
#![tactic(auto)]

mod changed;
mod ghosts;
mod names;
mod texts;
mod told;
mod walking;

pub use changed::{Changed, changed_by};
pub use told::Told;
