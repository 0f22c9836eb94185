//! A receiver put for `this` in the value of a definition, and state turned to the state at a method's entry,
//! both over the nodes of a table.
#![tactic(auto)]

mod entry;
mod receiving;

pub use entry::at_entry;
pub use receiving::received;
