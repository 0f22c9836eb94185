//! The fields, statics and variables that a formula outside methods reads.

mod naming;
mod reading;

pub use naming::{Read, Reading};
pub use reading::add_reads;
