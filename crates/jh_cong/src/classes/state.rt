use crate::classes::Said;
use jh_arena::table::Table;
use jh_closure::congruence_closure::{Closure, Equation};

/// A table, the closure of what was said of its nodes, the pairs that are apart from the start, what was said, the numbers of the
/// literals that say that two nodes differ, and how many of the first literals are enough for all that follows.
#[derive(Drop)]
pub(crate) struct State {
    pub(crate) table: Table,
    pub(crate) closure: Closure,
    pub(crate) apart: Vec<Equation>,
    pub(crate) said: Vec<Said>,
    pub(crate) denied: Vec<usize>,
    pub(crate) enough: usize,
}
