//! The commands of methods, and what they are made from.
#![tactic(auto)]

pub mod commands;
pub mod environment;
