//! What is said of the state of a program, as nodes of a table.

mod adding;
mod classes;
mod formed;
mod frames;
mod lying;
mod members;
mod state;

pub use formed::{StateFacts, state_facts, well_formed};
pub use frames::frame_fact;
pub use lying::push_lies;
pub use state::{Known, Member};
