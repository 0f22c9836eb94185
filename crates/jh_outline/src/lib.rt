//! The outline of a program, made from its source.
#![tactic(auto)]

pub mod declarations;
pub mod outline;

pub use jh_effects;
pub use jh_effects::{jh_type, jh_unfolding};
pub use jh_logic;
pub use jh_logic::jh_parse;
pub use jh_lowering;
pub use jh_method_commands;
pub use jh_symbols;
