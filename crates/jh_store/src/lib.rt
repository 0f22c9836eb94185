//! What a run holds: its memory, the state at entry, and heaps as lists.
#![tactic(auto)]

pub mod heaps;
pub mod memory;
pub mod state_pairs;
