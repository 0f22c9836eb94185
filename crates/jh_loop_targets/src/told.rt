use jh_name::Row;
use jh_state_facts::changes::SortedName;
use jh_symbols::member_numbers::Numbers;

/// What is known of the state of a program and of what its methods may write. `states` are the names of all state in
/// their order, of which the first `sets` are sets of objects. Methods have numbers, by class and own name; the row of
/// a method has the places, in the list of all state, of what it may write. `formulas` has at each place the node of
/// the formula of that number in the source, where there is one.
#[derive(Clone, Copy)]
pub struct Told<'a> {
    pub states: &'a [SortedName<'a>],
    pub sets: usize,
    pub numbers: &'a Numbers,
    pub rows: &'a [Row<usize>],
    pub formulas: &'a [Option<usize>],
}
