//! Where a run stands, and the statements that have no statement in them.

mod asking;
mod ghost_steps;
mod machine;
mod new_objects;
mod prepared;

pub use asking::ask;
pub use ghost_steps::{ghost_at, ghost_step};
pub use machine::{Machine, pay};
pub use new_objects::make;
pub use prepared::Prepared;
