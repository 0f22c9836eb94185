//! The names of the query of a sequent, over nodes.
#![tactic(auto)]

pub mod mentioned_names;
pub mod name_lists;
pub mod query_names;
pub mod visible_part;
