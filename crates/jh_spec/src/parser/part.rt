use jh_ast::{Labelled, Spec, SpecVar, Stmt, VarDef, Word};
use jh_name::Row;

/// A part of a specification that stands among the members of a class.
#[derive(Drop)]
pub enum SpecItem {
    /// `specvar`
    Var(SpecVar),
    /// `vardefs`
    Def(VarDef),
    /// `invariant`
    Invariant(Labelled),
}

/// What a specification comment holds.
#[derive(Drop)]
pub enum SpecPart {
    /// `claimedby` and a class, before a class.
    Claimed(Word),
    /// Variables, definitions and invariants of a class. There may be none of them.
    Items(Row<SpecItem>),
    /// The contract of a method.
    Contract {
        pre: Option<Spec>,
        modifies: Row<Word>,
        post: Option<Spec>,
    },
    /// The invariants of a loop.
    Loop(Row<Labelled>),
    /// Statements: `assert`, `note` and ghost assignments.
    Statements(Row<Stmt>),
}
