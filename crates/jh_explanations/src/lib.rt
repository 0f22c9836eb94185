//! Explanations of closed branches, and shorter ones.
#![tactic(auto)]

mod explaining;
mod keeping;
mod marking;
mod places;
mod rewinding;
mod shortening;
mod step;
mod testing;

pub use explaining::explain;
pub use shortening::shortened;
pub use step::{Step, has, is_one};
