//! Sequents that are valid at sight.

mod laws;
mod sight;

pub use laws::trivial_is_valid;
pub use sight::{gives, is_evident, is_trivial};
