//! Programs that break none of the type rules.

mod classes;
mod defaults;
mod faults;
mod typed;
mod words;

pub use typed::{TypeError, TypeRefused, Typed, check};
