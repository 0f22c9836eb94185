use jh_ast::Program;
use jh_name::{Row, Text};
use jh_semantics::typed_code::{Claim, MethodCode};
use jh_state_facts::changes::SortedName;
use jh_state_facts::well_formedness::{Member, StateFacts};
use jh_symbols::member_numbers::Numbers;

/// A method by its class and its own name, with what it may write.
#[derive(Clone, Copy)]
pub struct Callable<'a> {
    pub class: usize,
    pub name: &'a str,
    pub code: &'a MethodCode,
    /// The places, in the list of all state, of what it may write, itself or by the methods that it calls.
    pub written: &'a [usize],
    /// The places, in the list of the members, of those that it may write and that its `modifies` doesn't name.
    pub framed: &'a [usize],
}

/// A program, from which the commands of its methods are made.
#[derive(Clone, Copy)]
pub struct Outline<'a> {
    /// The source, which says what the formulas are.
    pub source: &'a Program,
    /// The texts of the classes by their numbers.
    pub classes: &'a [Text],
    /// The statics, fields and ghost variables in the order of the state.
    pub members: &'a [Member],
    /// The invariants of the file.
    pub invariants: &'a [Claim],
    /// The number of each method, by its class and its own name.
    pub numbers: &'a Numbers,
    /// The code of each method, at its number.
    pub methods: &'a [MethodCode],
    /// For each method, at its number, the places, in the list of all state, of what it may write.
    pub written: &'a [Row<usize>],
    /// For each method, at its number, the places, in the list of all state, of what its `modifies` names.
    pub modified: &'a [Row<usize>],
    /// For each method, at its number, the places, in the list of the members, of those that it may write and that its
    /// `modifies` doesn't name.
    pub framed: &'a [Row<usize>],
    /// The facts of each state that hang on no local, as nodes.
    pub facts: &'a StateFacts,
    /// The names of all state in their order.
    pub state: &'a [SortedName<'a>],
    /// The node of each formula by its number in the source, where there is one.
    pub formulas: &'a [Option<usize>],
}
