use crate::code::step::Step;
use jh_name::Row;

/// A method: the numbers of its parameters, and its statements. `keeps_entry` says that its formulas may read the state at
/// its entry, which is then kept while it runs.
#[derive(Drop)]
pub struct Body {
    pub params: Row<usize>,
    pub steps: Row<Step>,
    pub keeps_entry: bool,
}
