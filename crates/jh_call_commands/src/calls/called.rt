use jh_name::Text;
use jh_semantics::typed_code::{Claim, MethodCode};
use jh_state_facts::changes::SortedName;
use jh_state_facts::well_formedness::Member;

/// What a call needs of the program round it: the texts of the classes by their numbers, the members in the order of the
/// state, the invariants of the file, and at place `n` the node of the formula of number `n`.
#[derive(Clone, Copy)]
pub struct Surroundings<'a> {
    pub classes: &'a [Text],
    pub members: &'a [Member],
    pub invariants: &'a [Claim],
    pub formulas: &'a [Option<usize>],
}

/// The method that is called, the state that it may write in the order of the state, the sets of objects among that
/// state, and the places, among the members, of those that its `modifies` doesn't name though it may write them.
#[derive(Clone, Copy)]
pub struct Called<'a> {
    pub method: &'a MethodCode,
    pub written: &'a [SortedName<'a>],
    pub sets: &'a [SortedName<'a>],
    pub framed: &'a [usize],
}
