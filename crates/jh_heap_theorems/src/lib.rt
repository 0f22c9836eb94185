//! Laws of heap texts.
#![tactic(auto)]

pub mod program_fits;
pub mod round_trip;
