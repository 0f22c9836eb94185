//! Commands, their guarded runs, and their weakest preconditions.
#![tactic(auto)]

mod laws;

pub use laws::wp_is_weakest;
