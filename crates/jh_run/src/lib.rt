//! A run of a method from a heap text.
#![tactic(auto)]

pub mod outcome;
pub mod preparation;
pub mod runner;

pub use jh_heap_layout::jh_heap;
pub use jh_machine;
pub use jh_outline::{jh_logic, jh_parse, jh_type, jh_unfolding};
