//! Ground models of instances, and what literals decide: definitions, and their laws.

mod laws;

pub use laws::{
    clash_is_sound, explained_is_closed, fixpoint_is_open, models_hold_propagated,
    propagation_grows, propagation_is_sound, spent_is_below, spent_is_open,
    whole_fixpoint_is_model,
};
