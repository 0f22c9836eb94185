//! What the words behind a command are made of: options with their values, other words, and the numbers that are written there.
#![tactic(auto)]

mod reader;
mod setting;
mod shape;

pub use reader::{Given, Reader, parts};
pub use setting::{
    Setting, are_options, leaves, methods_in, number_for, number_in, number_of, rounds,
    setting_named, steps, workers,
};
pub use shape::cut_at_dot;
