//! Statements without statements inside, and what stands in them.
ghost use Rattle.std.specs.Prelude.{◌≡◌, ◌+◌, ◌≤◌, ◌<◌, length, IfOk, IsTrue};
ghost use Rattle.jh_operators.specs.lookahead.Answers.{Gives, IsWithin};
ghost use Rattle.jh_ast.specs.Bare.{expr_tree, stmt_body_tree, stmt_tree};
ghost use Rattle.jh_operators.specs.lookahead.Standing.{place_at};
ghost use Rattle.jh_spec.specs.parser.PartReads.{GivesLoop};
ghost use Rattle.jh_parse.specs.statements.Reading as read;
ghost use Rattle.jh_parse.specs.statements.Reads.{GivesCondition, GivesInitial, GivesStatement};

use crate::expressions::{call_after, expression, reads, rhs, target_of};
use jh_ast::{Expr, JType, Labelled, Param, Rhs, Stmt, StmtBody, Word};
use jh_lex::lexer::{Symbol, Token};
use jh_operators::lookahead::{
    ReadError, behind, boxed, is_plain_word, is_spec_open, is_symbol, place, word,
};
use jh_spec::parser::loop_part;
use std::alloc::Global;

#[tactic(auto, using(jh_ast::proofs::StmtSteps::stmt_steps))]
pub(crate) fn at_place(tokens: &[Token], at: usize, body: StmtBody) -> Stmt
    ensures { stmt_tree result ≡ stmt_body_tree (place_at tokens.now at) body }
{
    Stmt {
        place: place(tokens, at),
        body,
    }
}

/// The type at a place, and the place after it.
#[tactic(auto, unfolding(crate::specs::statements::Reading::typed_at, jh_operators::specs::lookahead::Choices::and_then, jh_operators::specs::lookahead::Choices::choose, jh_operators::specs::lookahead::Choices::given))]
pub fn typed(alloc: Global, tokens: &[Token], at: usize) -> Result<(JType, usize), ReadError>
    requires { at ≤ length tokens.now }
    ensures value { Gives (λ read. read) (read.typed_at tokens.now at) result }
    ensures within { IfOk result (λ read. IsWithin (length tokens.now) at read.1) }
{
    if is_symbol(tokens, at, Symbol::Int) {
        return Ok((JType::Int, at + 1));
    }
    if is_symbol(tokens, at, Symbol::Boolean) {
        return Ok((JType::Boolean, at + 1));
    }
    let class = word(alloc, tokens, at)?;
    Ok((JType::Class(class), at + 1))
}

/// What a local is given where it is declared.
#[tactic(auto, unfolding(crate::specs::statements::Reading::initial_at, jh_operators::specs::lookahead::Choices::and_then, jh_operators::specs::lookahead::Choices::choose, jh_operators::specs::lookahead::Choices::given))]
fn initial(alloc: Global, tokens: &[Token], at: usize) -> Result<(Option<Rhs>, usize), ReadError>
    requires { at ≤ length tokens.now }
    ensures value { GivesInitial (read.initial_at tokens.now at) result }
    ensures within { IfOk result (λ read. (at ≤ read.1) × (read.1 ≤ length tokens.now)) }
{
    if !is_symbol(tokens, at, Symbol::Equal) {
        return Ok((None, at));
    }
    let (value, next) = rhs(alloc, tokens, at + 1)?;
    Ok((Some(value), next))
}

/// A condition in its brackets. It comes in a box, as all wide values do while something may fail.
#[tactic(auto, unfolding(crate::specs::statements::Reading::condition_at, jh_operators::specs::lookahead::Choices::and_then, jh_operators::specs::lookahead::Choices::choose, jh_operators::specs::lookahead::Choices::given))]
pub(crate) fn condition(
    alloc: Global,
    tokens: &[Token],
    at: usize,
) -> Result<(Box<Expr>, usize), ReadError>
    requires { at ≤ length tokens.now }
    ensures value { GivesCondition (read.condition_at tokens.now at) result }
    ensures within { IfOk result (λ read. IsWithin (length tokens.now) at read.1) }
{
    let next = behind(tokens, at, Symbol::LeftParenthesis)?;
    let (condition, next) = expression(alloc, tokens, next)?;
    let condition = boxed(alloc, condition)?;
    let next = behind(tokens, next, Symbol::RightParenthesis)?;
    Ok((condition, next))
}

/// The invariants of a loop, if any.
#[tactic(auto, unfolding(crate::specs::statements::Reading::invariants_at, jh_operators::specs::lookahead::Choices::and_then, jh_operators::specs::lookahead::Choices::choose, jh_operators::specs::lookahead::Choices::given))]
pub(crate) fn invariants(
    alloc: Global,
    tokens: &[Token],
    number: u32,
    at: usize,
) -> Result<(Vec<Labelled>, usize, u32), ReadError>
    requires { at ≤ length tokens.now }
    ensures value { GivesLoop (read.invariants_at tokens.now number at) result }
    ensures within { IfOk result (λ read. (at ≤ read.1) × (read.1 ≤ length tokens.now)) }
{
    if !is_spec_open(tokens, at) {
        return Ok((Vec::new(alloc), at, number));
    }
    let (made, next, number) = loop_part(alloc, tokens, number, at + 1)?;
    Ok((made, next + 1, number))
}

/// A type and the word of what it is declared of.
#[tactic(auto, unfolding(crate::specs::statements::Reading::declared_at, jh_operators::specs::lookahead::Choices::and_then, jh_operators::specs::lookahead::Choices::choose, jh_operators::specs::lookahead::Choices::given))]
pub fn declared(alloc: Global, tokens: &[Token], at: usize) -> Result<(Param, usize), ReadError>
    requires { at ≤ length tokens.now }
    ensures value { Gives (λ read. read) (read.declared_at tokens.now at) result }
    ensures within { IfOk result (λ read. IsWithin (length tokens.now) at read.1) }
{
    let (jtype, next) = typed(alloc, tokens, at)?;
    let name = word(alloc, tokens, next)?;
    Ok((Param { name, jtype }, next + 1))
}

/// A local that is declared.
#[tactic(auto, using(jh_ast::proofs::StmtSteps::stmt_steps), unfolding(crate::specs::statements::Reading::local_at, jh_operators::specs::lookahead::Choices::and_then, jh_operators::specs::lookahead::Choices::choose, jh_operators::specs::lookahead::Choices::given))]
pub(crate) fn local(
    alloc: Global,
    tokens: &[Token],
    number: u32,
    at: usize,
) -> Result<(Stmt, usize, u32), ReadError>
    requires { at ≤ length tokens.now }
    ensures value { GivesStatement (read.local_at tokens.now number at) result }
    ensures within { IfOk result (λ read. IsWithin (length tokens.now) at read.1) }
{
    let (param, next) = declared(alloc, tokens, at)?;
    let (value, next) = initial(alloc, tokens, next)?;
    let value = boxed(alloc, value)?;
    let next = behind(tokens, next, Symbol::Semicolon)?;
    let body = StmtBody::Local(param, Box::into_inner(value));
    Ok((at_place(tokens, at, body), next, number))
}

/// Whether a local is declared at a place.
pub(crate) fn is_local(tokens: &[Token], at: usize) -> bool
    requires { at ≤ length tokens.now }
    ensures { result ≡ read.is_local_at tokens.now at }
{
    is_symbol(tokens, at, Symbol::Int)
        || is_symbol(tokens, at, Symbol::Boolean)
        || (is_plain_word(tokens, at) && is_plain_word(tokens, at + 1))
}

/// A call whose beginning is read.
#[tactic(auto, using(jh_ast::proofs::StmtSteps::stmt_steps), unfolding(crate::specs::statements::Reading::call_after, jh_operators::specs::lookahead::Choices::and_then, jh_operators::specs::lookahead::Choices::choose, jh_operators::specs::lookahead::Choices::given))]
fn call_statement(
    alloc: Global,
    tokens: &[Token],
    number: u32,
    at: usize,
    operand: Expr,
    last: Option<Word>,
    next: usize,
) -> Result<(Stmt, usize, u32), ReadError>
    requires { next ≤ length tokens.now }
    ensures value { GivesStatement (read.call_after tokens.now number at (expr_tree operand) last next) result }
    ensures within { IfOk result (λ read. IsWithin (length tokens.now) next read.1) }
{
    let (call, next) = call_after(alloc, tokens, at, operand, last, next)?;
    let call = boxed(alloc, call)?;
    let next = behind(tokens, next, Symbol::Semicolon)?;
    let body = StmtBody::Call(Box::into_inner(call));
    Ok((at_place(tokens, at, body), next, number))
}

/// An assignment whose beginning is read.
#[tactic(auto, using(jh_ast::proofs::StmtSteps::stmt_steps), unfolding(crate::specs::statements::Reading::assign_after, jh_operators::specs::lookahead::Choices::and_then, jh_operators::specs::lookahead::Choices::choose, jh_operators::specs::lookahead::Choices::given))]
fn assignment(
    alloc: Global,
    tokens: &[Token],
    number: u32,
    at: usize,
    operand: Expr,
    last: Option<Word>,
    next: usize,
) -> Result<(Stmt, usize, u32), ReadError>
    requires { next ≤ length tokens.now }
    ensures value { GivesStatement (read.assign_after tokens.now number at (expr_tree operand) last next) result }
    ensures within { IfOk result (λ read. IsWithin (length tokens.now) next read.1) }
{
    let target = target_of(alloc, tokens, at, operand, last)?;
    let target = boxed(alloc, target)?;
    let next = behind(tokens, next, Symbol::Equal)?;
    let (value, next) = rhs(alloc, tokens, next)?;
    let value = boxed(alloc, value)?;
    let next = behind(tokens, next, Symbol::Semicolon)?;
    let body = StmtBody::Assign(Box::into_inner(target), Box::into_inner(value));
    Ok((at_place(tokens, at, body), next, number))
}

/// A call or an assignment.
#[tactic(auto, using(jh_ast::proofs::StmtSteps::stmt_steps), unfolding(crate::specs::statements::Reading::simple_at, jh_operators::specs::lookahead::Choices::and_then, jh_operators::specs::lookahead::Choices::choose, jh_operators::specs::lookahead::Choices::given))]
pub(crate) fn simple(
    alloc: Global,
    tokens: &[Token],
    number: u32,
    at: usize,
) -> Result<(Stmt, usize, u32), ReadError>
    requires { at ≤ length tokens.now }
    ensures value { GivesStatement (read.simple_at tokens.now number at) result }
    ensures within { IfOk result (λ read. IsWithin (length tokens.now) at read.1) }
{
    let (operand, last, next) = reads(alloc, tokens, at)?;
    if is_symbol(tokens, next, Symbol::LeftParenthesis) {
        return call_statement(alloc, tokens, number, at, operand, last, next);
    }
    assignment(alloc, tokens, number, at, operand, last, next)
}

/// What is returned, after its word.
#[tactic(auto, using(jh_ast::proofs::StmtSteps::stmt_steps), unfolding(crate::specs::statements::Reading::return_at, jh_operators::specs::lookahead::Choices::and_then, jh_operators::specs::lookahead::Choices::choose, jh_operators::specs::lookahead::Choices::given))]
pub(crate) fn returned(
    alloc: Global,
    tokens: &[Token],
    number: u32,
    at: usize,
) -> Result<(Stmt, usize, u32), ReadError>
    requires { at < length tokens.now }
    ensures value { GivesStatement (read.return_at tokens.now number at) result }
    ensures within { IfOk result (λ read. IsWithin (length tokens.now) at read.1) }
{
    if is_symbol(tokens, at + 1, Symbol::Semicolon) {
        return Ok((at_place(tokens, at, StmtBody::Return(None)), at + 2, number));
    }
    let (value, next) = expression(alloc, tokens, at + 1)?;
    let value = boxed(alloc, value)?;
    let next = behind(tokens, next, Symbol::Semicolon)?;
    let body = StmtBody::Return(Some(Box::into_inner(value)));
    Ok((at_place(tokens, at, body), next, number))
}
