//! What definitions read, their order, and their expansion.
#![tactic(auto)]

pub mod dependency_order;
pub mod expansion;
pub mod reads;

pub use jh_resolution;
