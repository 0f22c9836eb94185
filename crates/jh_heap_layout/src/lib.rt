//! Heaps put into the memory of a run and taken out of it.
#![tactic(auto)]

pub mod layout;
pub mod loading;

pub use jh_heap;
