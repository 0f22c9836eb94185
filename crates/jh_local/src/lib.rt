//! What the ground search says of a sequent of local shape.
#![tactic(auto)]

pub use jh_ground_input::{
    jh_abstraction, jh_fca, jh_instantiation, jh_local_form, jh_query_names,
};

mod answer;
mod asking;
mod boxing;
mod laws;
mod posing;

pub use answer::{Branch, Closed, LocalCause, Searched, searched_can_be_shared};
pub use asking::search_instances;
pub use laws::local_proof_is_valid;
