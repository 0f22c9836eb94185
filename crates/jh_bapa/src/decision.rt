//! Queries about sets, elements, numbers and flags, decided by the places of the elements and by digit systems.

mod casing;
mod deciding;
mod flagging;
mod hoping;
mod judging;
mod lines;
mod naming;
mod placing;
mod reading;
mod rows;
mod sets;
mod solving;
mod splitting;
mod spoiling;

pub use deciding::{Decided, decide};
pub use naming::is_well_formed;
