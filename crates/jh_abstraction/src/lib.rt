//! The query of a sequent, over nodes: which hypotheses it keeps, and what it says.
#![tactic(auto)]

pub mod choice_of_hypotheses;
pub mod translation;

pub use jh_query_names;
pub use jh_splitting;
