//! Where the names of formulas have their values in a run, and which names are no state.

mod homes;
mod locals;

pub use homes::homes_of;
pub use locals::locals_of;
