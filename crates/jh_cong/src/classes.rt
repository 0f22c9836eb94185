//! Congruence closure over the nodes of a table: equations and inequations are asserted, a conflict comes exactly where no
//! structure meets them, and what follows is told and explained.

mod apart;
mod clashing;
mod classes;
mod following;
mod literal;
mod sorts;
mod state;
mod telling;

pub use classes::Classes;
pub use literal::{CongError, Said};
