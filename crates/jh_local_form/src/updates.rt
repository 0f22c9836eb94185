//! Updates in formulas that are nodes of a table, each once, and the names that stand for them.

mod asking;
mod describing;
mod facts;
mod gathering;
mod naming;
mod renaming;
mod turns;

pub use facts::{NamedUpdate, named_update, update_facts};
pub use gathering::{parts_of, updates};
pub use naming::{Naming, names};
pub use renaming::{named, named_value};
pub use turns::first_turn;
