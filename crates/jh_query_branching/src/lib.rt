//! What branches when a query is decided: spots, cases, and right sides of equations.
#![tactic(auto)]

mod cases;
mod counting;
mod sides;
mod spots;

pub use cases::{case_at, case_count};
pub use sides::{number_factor, rest_factor, right_of};
pub use spots::new_spot;
