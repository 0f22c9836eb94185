//! Derivations of what the ground search proves.

mod answering;
mod facts;
mod nesting;
mod weighing;
mod whole;
mod writing;

pub use whole::derived;
