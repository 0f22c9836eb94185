//! The state that methods write and name.
#![tactic(auto)]

pub mod direct_effects;
pub mod modified_state;
pub mod written_state;

pub use jh_definitions::jh_resolution;
pub use jh_type;
pub use jh_unfolding;
pub use jh_vars;
