//! Branches that are made of their parts. The first part comes in a box: a statement by itself is wide, and beside
//! another value it makes each exit dear to prove.
ghost use Rattle.std.specs.Prelude.{◌≡◌, IfOk};
ghost use Rattle.jh_ast.specs.Bare.{expr_tree, stmt_tree};
ghost use Rattle.jh_ast.specs.Stmts as stmt;
ghost use Rattle.jh_operators.specs.lookahead.Standing.{place_at};

use crate::statements::simple::at_place;
use jh_ast::{Expr, Stmt, StmtBody};
use jh_lex::lexer::Token;
use jh_name::NoMemory;
use jh_operators::lookahead::boxed;
use std::alloc::Global;

/// A branch with one part.
pub(crate) fn one_way(tokens: &[Token], at: usize, condition: Box<Expr>, then: Box<Stmt>) -> Stmt
    ensures { stmt_tree result ≡ stmt.branch (place_at tokens.now at) (expr_tree condition.value) (stmt_tree then.value) stmt.none }
{
    let body = StmtBody::If(Box::into_inner(condition), then, None);
    at_place(tokens, at, body)
}

/// A branch with two parts.
pub(crate) fn two_ways(
    alloc: Global,
    tokens: &[Token],
    at: usize,
    condition: Box<Expr>,
    then: Box<Stmt>,
    other: Stmt,
) -> Result<Stmt, NoMemory>
    ensures { IfOk result (λ made. stmt_tree made ≡ stmt.branch (place_at tokens.now at) (expr_tree condition.value) (stmt_tree then.value) (stmt.more (stmt_tree other) stmt.none)) }
{
    let other = boxed(alloc, other)?;
    let body = StmtBody::If(Box::into_inner(condition), then, Some(other));
    Ok(at_place(tokens, at, body))
}
