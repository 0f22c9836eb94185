//! Over the nodes of a table: constants for what is said to be there, quantifiers pulled to the front, and universals put
//! at terms.

mod closing;
mod fronts;
mod grounds;
mod pulling;
mod putting;
mod settling;
mod witnessing;

pub use fronts::in_front;
pub use grounds::is_ground;
pub use pulling::prenexed;
pub use putting::put_one;
pub use settling::{Settled, settle};
pub use witnessing::witnessed;
