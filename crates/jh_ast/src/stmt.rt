use crate::{Expr, Labelled, Param, Spec, Word};
use jh_name::{Place, Row};

/// A statement, at the place of its first token. A specification that is the body of an `if`, an `else`
/// or a `while` is one block, at the place where it opens.
#[cycle(stmt)]
#[derive(Drop)]
pub struct Stmt {
    pub place: Place,
    pub body: StmtBody,
}

/// What a statement is.
#[cycle(stmt)]
#[derive(Drop)]
pub enum StmtBody {
    /// `;`
    Empty,
    /// `{ .. }`
    Block(Row<Stmt>),
    /// A local is declared, and given a value where one is written.
    Local(Param, Option<Rhs>),
    /// `x = e;` or `r.f = e;`: what is assigned to is a name or a member.
    Assign(Expr, Rhs),
    /// A call whose result isn't used.
    Call(Call),
    /// `if (c) s`, with `else s` or without.
    If(Expr, Box<Stmt>, Option<Box<Stmt>>),
    /// `while (c) s` with its invariants.
    While(Row<Labelled>, Expr, Box<Stmt>),
    /// `return;` or `return e;`
    Return(Option<Expr>),
    /// `assert`
    Assert(Labelled),
    /// `note`
    Note(Labelled),
    /// `v := t` over ghost variables: v, then t.
    Ghost(Spec, Spec),
}

/// What is assigned.
#[derive(Drop)]
pub enum Rhs {
    /// The value of an expression.
    Value(Expr),
    /// The result of a call.
    Call(Call),
    /// `new C()`
    New(Word),
}

/// A call of a method, on a receiver where one is written.
#[derive(Drop)]
pub struct Call {
    pub receiver: Option<Expr>,
    pub method: Word,
    pub args: Row<Expr>,
}
