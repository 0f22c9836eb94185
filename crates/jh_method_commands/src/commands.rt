//! The commands of statements and of methods, over the nodes of a table.

mod calling;
mod forming;
mod loops;
mod methods;
mod returning;
mod scope;
mod sides;
mod statements;

pub use methods::{MethodCommand, of_method};
