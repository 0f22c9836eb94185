//! The parser of statements.

mod branches;
mod simple;
mod statements;

pub use simple::{declared, typed};
pub use statements::body;
