//! What holds of made sources.
#![tactic(auto)]

pub mod program;
pub mod sequent_count;
pub mod spelling;
pub mod tokens;
pub mod typing;

pub use jh_obligations;
