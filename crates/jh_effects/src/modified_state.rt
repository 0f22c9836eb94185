//! The state that the `modifies` of each method names, through definitions too.

mod modifying;
mod naming;

pub use modifying::modified;
