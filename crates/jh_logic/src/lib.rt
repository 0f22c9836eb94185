//! The soundness of the program logic: of code, of sources, of texts.
#![tactic(auto)]

pub mod logic;
pub mod source;
pub mod text;

pub use jh_parse;
