//! The parser of programs: which tokens spell which program, and that they spell at most one.

mod answering;
mod classes;
mod draft;
mod fields;
mod laws;
mod members;
mod methods;

pub use answering::program;
pub use laws::at_most_one_program;
