//! The tokens of a source.
#![tactic(auto)]

pub mod lexer;
pub mod word_front;
