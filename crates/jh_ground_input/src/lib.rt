//! The facts of a sequent of local shape, in a table of their own.
#![tactic(auto)]

pub use jh_instantiation;
pub use jh_local_form;
pub use jh_local_form::{jh_abstraction, jh_fca, jh_query_names};

mod facts;

pub use facts::{Apart, facts_apart};
