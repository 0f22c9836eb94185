//! Methods as guarded commands.
#![tactic(auto)]

mod laws;

pub use laws::checks_are_exact;
