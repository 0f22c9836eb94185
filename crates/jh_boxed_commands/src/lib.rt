//! Commands over boxed formulas.
#![tactic(auto)]

pub mod commands;
pub mod conditions;
pub mod methods;

pub use jh_outline::jh_logic;
