//! The interpreter.
#![tactic(auto)]

pub mod frames;
pub mod interpreter;

pub use jh_machine_code;
