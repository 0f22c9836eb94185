//! Guarded commands over boxed formulas, and their ways into a table of nodes and out of it.

mod boxing;
mod command;
mod entering;
mod levels;

pub use boxing::boxed_command;
pub use command::{Command, MethodCommand};
pub use entering::enter_command;
pub use levels::MOST_NESTED;
