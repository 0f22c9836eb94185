//! A program that a made source spells breaks no rule.

mod laws;

pub use laws::{made_is_acyclic, made_is_typed};
