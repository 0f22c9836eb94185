//! Things in an order in which each stands behind all that it reads.

mod cycles;
mod done;
mod ordering;

pub use cycles::is_cyclic;
pub use done::Done;
pub use ordering::order;
