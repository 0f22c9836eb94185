//! Nodes carried from one table of formulas into another, without boxing them.

mod carrying;
mod entries;
mod memo;
mod placing;

pub use carrying::{carry, carry_all};
