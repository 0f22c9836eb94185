//! The truth of conditions and queries as far as elements stand and cases of atoms are chosen.

mod casing;
mod judging;

pub use casing::{Atom, Case, case_truth};
pub use judging::{judge, judge_query};
