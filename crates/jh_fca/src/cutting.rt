//! What has no local form is cut from formulas that are nodes of a table.

mod asking;
mod folding;
mod iffs;
mod laws;
mod quantified;
mod removing;

pub use laws::cut_may_stand;
pub use removing::cut;
