//! Guarded commands over the nodes of a table.

mod command;

pub use command::Command;
