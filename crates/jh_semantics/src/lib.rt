//! What a program means: its states, its runs, and that it is sound. These are definitions, in `specs/`; the calls here
//! are their laws.
#![tactic(auto)]

mod laws;
pub mod typed_code;

pub use laws::{
    bounds_end_no_run, calls_are_bodies, heaps_are_whole, loops_are_turns, runs_only_add,
    runs_stay_well_formed, runs_stay_whole,
};
