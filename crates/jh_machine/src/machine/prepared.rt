use jh_arena::table::Table;
use jh_machine_code::code::Body;
use jh_store::memory::Names;
use jh_store::state_pairs::Home;

/// What a run is prepared with: its methods by their numbers, the table of its formulas, the names by their numbers, the
/// homes of the table's names, the numbers of all names that are no state, and those of `this` and of the set of all
/// objects.
#[derive(Clone, Copy)]
pub struct Prepared<'a> {
    pub methods: &'a [Body],
    pub table: &'a Table,
    pub names: &'a Names,
    pub homes: &'a [Home],
    pub locals: &'a [usize],
    pub this: usize,
    pub all: usize,
}
