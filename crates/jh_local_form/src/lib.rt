//! The local form of a sequent, over nodes.
#![tactic(auto)]

pub mod field_lists;
pub mod local_sequents;
pub mod updates;

pub use jh_abstraction;
pub use jh_abstraction::jh_query_names;
pub use jh_fca;
