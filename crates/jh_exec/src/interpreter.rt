//! The machine that runs a method from a memory.

mod advancing;
mod branching;
mod run;
mod statements;

pub use jh_machine::machine::Prepared;
pub use run::{Ended, free_objects, run_prepared};
