//! The nodes of the formulas of a source: names resolved, and what is defined put for each defined variable.
#![tactic(auto)]

pub use jh_type;

mod coercing;
mod context;
mod fields;
mod literals;
mod naming;
mod operators;
mod own;
mod resolving;
mod values;

pub use context::{Context, Spot};
pub use own::own_name;
pub use resolving::{resolved, under};
