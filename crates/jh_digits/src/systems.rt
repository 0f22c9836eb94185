//! Linear systems over the natural numbers, what solves them, and what an answer about one says.

mod checking;
mod entries;
mod system;
mod telling;

pub use checking::holds;
pub use entries::{minus_entry, minus_right, plus_entry, plus_right};
pub use system::{Digits, Solved, System};
pub use telling::told;
