//! Exchange of parts that have loose bound variables, over the nodes of a table.

mod exchanging;
mod laws;
mod varying;

pub use exchanging::exchange_under;
pub use laws::{exchange_under_keeps_meaning, varied_keeps_meaning};
pub use varying::vary;
