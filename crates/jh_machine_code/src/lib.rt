//! Code over numbers of names, made from the code of a source.
#![tactic(auto)]

pub mod code;
pub mod entry_state;
pub mod numbering;
