//! Statements. `room` is a number of levels that is more than enough; the nesting of a source is what bounds the recursion.
ghost use Rattle.std.specs.Prelude.{◌≡◌, ◌+◌, ◌≤◌, ◌<◌, length, IfOk};
ghost use Rattle.jh_operators.specs.lookahead.Answers.{IsWithin};
ghost use Rattle.jh_ast.specs.Bare.{expr_tree, stmt_tree};
ghost use Rattle.jh_parse.specs.statements.Reading as read;
ghost use Rattle.jh_parse.specs.statements.Reads.{GivesBody, GivesPiece, GivesStatement};

use crate::statements::branches::{one_way, two_ways};
use crate::statements::simple::{
    at_place, condition, invariants, is_local, local, returned, simple,
};
use jh_ast::{Expr, Stmt, StmtBody};
use jh_lex::lexer::{Symbol, Token};
use jh_name::Row;
use jh_operators::lookahead::{ReadError, behind, boxed, is_spec_open, is_symbol};
use jh_spec::parser::statements_part;
use std::alloc::Global;

/// A statement.
#[cycle(reading)]
#[tactic(auto, using(jh_ast::proofs::StmtSteps::stmt_steps, crate::proofs::statements::Rests::reading_steps), unfolding(crate::specs::statements::Reading::statement_of, jh_operators::specs::lookahead::Choices::and_then, jh_operators::specs::lookahead::Choices::choose, jh_operators::specs::lookahead::Choices::given))]
fn statement(
    alloc: Global,
    tokens: &[Token],
    room: usize,
    number: u32,
    at: usize,
) -> Result<(Stmt, usize, u32), ReadError>
    requires at_place { at ≤ length tokens.now }
    ensures value { GivesStatement (read.inside tokens.now room number at) result }
    ensures within { IfOk result (λ read. IsWithin (length tokens.now) at read.1) }
{
    if room == 0 {
        return Err(ReadError::Refused(at));
    }
    if is_symbol(tokens, at, Symbol::Semicolon) {
        return Ok((at_place(tokens, at, StmtBody::Empty), at + 1, number));
    }
    if is_symbol(tokens, at, Symbol::LeftBrace) {
        return block(alloc, tokens, room - 1, number, at);
    }
    if is_symbol(tokens, at, Symbol::If) {
        return branch(alloc, tokens, room - 1, number, at);
    }
    if is_symbol(tokens, at, Symbol::While) {
        return repeated(alloc, tokens, room - 1, number, at);
    }
    if is_symbol(tokens, at, Symbol::Return) {
        return returned(alloc, tokens, number, at);
    }
    if is_local(tokens, at) {
        return local(alloc, tokens, number, at);
    }
    simple(alloc, tokens, number, at)
}

/// A block.
#[cycle(reading)]
#[tactic(auto, using(jh_ast::proofs::StmtSteps::stmt_steps, crate::proofs::statements::Rests::reading_steps), unfolding(crate::specs::statements::Reading::block_of, jh_operators::specs::lookahead::Choices::and_then, jh_operators::specs::lookahead::Choices::choose, jh_operators::specs::lookahead::Choices::given))]
fn block(
    alloc: Global,
    tokens: &[Token],
    room: usize,
    number: u32,
    at: usize,
) -> Result<(Stmt, usize, u32), ReadError>
    requires at_place { at < length tokens.now }
    ensures value { GivesStatement (read.block_of tokens.now (read.inside tokens.now room) number at) result }
    ensures within { IfOk result (λ read. IsWithin (length tokens.now) at read.1) }
{
    let (made, next, number) = inside(alloc, tokens, room, number, at)?;
    let made = Row::of(made);
    Ok((
        at_place(tokens, at, StmtBody::Block(made)),
        next + 1,
        number,
    ))
}

/// A branch.
#[cycle(reading)]
#[tactic(auto, using(jh_ast::proofs::StmtSteps::stmt_steps, crate::proofs::statements::Rests::reading_steps), unfolding(crate::specs::statements::Reading::if_of, jh_operators::specs::lookahead::Choices::and_then, jh_operators::specs::lookahead::Choices::choose, jh_operators::specs::lookahead::Choices::given))]
fn branch(
    alloc: Global,
    tokens: &[Token],
    room: usize,
    number: u32,
    at: usize,
) -> Result<(Stmt, usize, u32), ReadError>
    requires at_place { at < length tokens.now }
    ensures value { GivesStatement (read.if_of tokens.now (read.inside tokens.now room) number at) result }
    ensures within { IfOk result (λ read. IsWithin (length tokens.now) at read.1) }
{
    let (condition, next) = condition(alloc, tokens, at + 1)?;
    let (then, next, number) = part(alloc, tokens, room, number, next)?;
    let then = boxed(alloc, then)?;
    otherwise(alloc, tokens, room, at, condition, then, number, next)
}

/// The rest of a branch, which may have a second part.
#[cycle(reading)]
#[tactic(auto, using(jh_ast::proofs::StmtSteps::stmt_steps, crate::proofs::statements::Rests::reading_steps), unfolding(crate::specs::statements::Reading::else_of, jh_operators::specs::lookahead::Choices::and_then, jh_operators::specs::lookahead::Choices::choose, jh_operators::specs::lookahead::Choices::given))]
fn otherwise(
    alloc: Global,
    tokens: &[Token],
    room: usize,
    at: usize,
    condition: Box<Expr>,
    then: Box<Stmt>,
    number: u32,
    next: usize,
) -> Result<(Stmt, usize, u32), ReadError>
    requires at_place { next ≤ length tokens.now }
    ensures value { GivesStatement (read.else_of tokens.now (read.inside tokens.now room) at (expr_tree condition.value) (stmt_tree then.value) number next) result }
    ensures within { IfOk result (λ read. (next ≤ read.1) × (read.1 ≤ length tokens.now)) }
{
    if !is_symbol(tokens, next, Symbol::Else) {
        let made = one_way(tokens, at, condition, then);
        return Ok((made, next, number));
    }
    let (other, next, number) = part(alloc, tokens, room, number, next + 1)?;
    let made = two_ways(alloc, tokens, at, condition, then, other)?;
    Ok((made, next, number))
}

/// A loop.
#[cycle(reading)]
#[tactic(auto, using(jh_ast::proofs::StmtSteps::stmt_steps, crate::proofs::statements::Rests::reading_steps), unfolding(crate::specs::statements::Reading::while_of, jh_operators::specs::lookahead::Choices::and_then, jh_operators::specs::lookahead::Choices::choose, jh_operators::specs::lookahead::Choices::given))]
fn repeated(
    alloc: Global,
    tokens: &[Token],
    room: usize,
    number: u32,
    at: usize,
) -> Result<(Stmt, usize, u32), ReadError>
    requires at_place { at < length tokens.now }
    ensures value { GivesStatement (read.while_of tokens.now (read.inside tokens.now room) number at) result }
    ensures within { IfOk result (λ read. IsWithin (length tokens.now) at read.1) }
{
    let (laws, next, number) = invariants(alloc, tokens, number, at + 1)?;
    let (condition, next) = condition(alloc, tokens, next)?;
    let (body, next, number) = part(alloc, tokens, room, number, next)?;
    let body = boxed(alloc, body)?;
    let body = StmtBody::While(Row::of(laws), Box::into_inner(condition), body);
    Ok((at_place(tokens, at, body), next, number))
}

/// The body of a branch or of a loop.
#[cycle(reading)]
#[tactic(auto, using(jh_ast::proofs::StmtSteps::stmt_steps, crate::proofs::statements::Rests::reading_steps), unfolding(crate::specs::statements::Reading::part_of, jh_operators::specs::lookahead::Choices::and_then, jh_operators::specs::lookahead::Choices::choose, jh_operators::specs::lookahead::Choices::given))]
fn part(
    alloc: Global,
    tokens: &[Token],
    room: usize,
    number: u32,
    at: usize,
) -> Result<(Stmt, usize, u32), ReadError>
    requires at_place { at ≤ length tokens.now }
    ensures value { GivesStatement (read.part_of tokens.now (read.inside tokens.now room) number at) result }
    ensures within { IfOk result (λ read. IsWithin (length tokens.now) at read.1) }
{
    if !is_spec_open(tokens, at) {
        return statement(alloc, tokens, room, number, at);
    }
    let (made, next, number) = statements_part(alloc, tokens, number, at + 1)?;
    let made = Row::of(made);
    Ok((
        at_place(tokens, at, StmtBody::Block(made)),
        next + 1,
        number,
    ))
}

/// A statement in a block, or those of a specification, after those that are there.
#[cycle(reading)]
#[tactic(auto, using(jh_ast::proofs::StmtSteps::stmt_steps, crate::proofs::statements::Rests::reading_steps), unfolding(crate::specs::statements::Reading::piece_of, jh_operators::specs::lookahead::Choices::and_then, jh_operators::specs::lookahead::Choices::choose, jh_operators::specs::lookahead::Choices::given))]
fn piece(
    alloc: Global,
    tokens: &[Token],
    room: usize,
    made: &mut Vec<Stmt>,
    number: u32,
    at: usize,
) -> Result<(usize, u32), ReadError>
    requires at_place { at ≤ length tokens.now }
    ensures value { GivesPiece made.old.items made.new.items (read.piece_of tokens.now (read.inside tokens.now room) number at) result }
    ensures within { IfOk result (λ read. IsWithin (length tokens.now) at read.0) }
{
    if is_spec_open(tokens, at) {
        let (mut parts, next, number) = statements_part(alloc, tokens, number, at + 1)?;
        made.append(&mut parts)?;
        return Ok((next + 1, number));
    }
    let (one, next, number) = statement(alloc, tokens, room, number, at)?;
    made.push(one)?;
    Ok((next, number))
}

/// Statements up to a closing brace.
#[cycle(reading)]
#[tactic(auto, using(jh_ast::proofs::StmtSteps::stmt_steps, crate::proofs::statements::Rests::reading_steps), unfolding(crate::specs::statements::Reading::several_of, jh_operators::specs::lookahead::Choices::and_then, jh_operators::specs::lookahead::Choices::choose, jh_operators::specs::lookahead::Choices::given))]
fn several(
    alloc: Global,
    tokens: &[Token],
    room: usize,
    number: u32,
    from: usize,
) -> Result<(Vec<Stmt>, usize, u32), ReadError>
    requires at_place { from ≤ length tokens.now }
    ensures value { GivesBody (read.several_of tokens.now (read.inside tokens.now room) (length tokens.now) number from) result }
    ensures within { IfOk result (λ read. (from ≤ read.1) × (read.1 < length tokens.now)) }
{
    let mut made = Vec::new(alloc);
    let mut at = from;
    let mut after = number;
    let mut turns = tokens.len();
    'each: while !is_symbol(tokens, at, Symbol::RightBrace) {
        if turns == 0 {
            return Err(ReadError::Refused(at));
        }
        let (next, number) = piece(alloc, tokens, room, &mut made, after, at)?;
        at = next;
        after = number;
        turns -= 1;
    }
    Ok((made, at, after))
}

/// The statements in braces, up to the closing brace.
#[cycle(reading)]
#[tactic(auto, using(jh_ast::proofs::StmtSteps::stmt_steps, crate::proofs::statements::Rests::reading_steps), unfolding(crate::specs::statements::Reading::body_of, jh_operators::specs::lookahead::Choices::and_then, jh_operators::specs::lookahead::Choices::choose, jh_operators::specs::lookahead::Choices::given))]
fn inside(
    alloc: Global,
    tokens: &[Token],
    room: usize,
    number: u32,
    at: usize,
) -> Result<(Vec<Stmt>, usize, u32), ReadError>
    requires at_place { at ≤ length tokens.now }
    ensures value { GivesBody (read.body_of tokens.now (read.inside tokens.now room) number at) result }
    ensures within { IfOk result (λ read. (at < read.1) × (read.1 < length tokens.now)) }
{
    let _opening = behind(tokens, at, Symbol::LeftBrace)?;
    several(alloc, tokens, room, number, at + 1)
}

/// The statements in braces at a place, the place of the closing brace, and the number after their formulas.
#[tactic(auto, unfolding(crate::specs::statements::Reading::body_at, jh_operators::specs::lookahead::Choices::and_then, jh_operators::specs::lookahead::Choices::choose, jh_operators::specs::lookahead::Choices::given))]
pub fn body(
    alloc: Global,
    tokens: &[Token],
    number: u32,
    at: usize,
) -> Result<(Vec<Stmt>, usize, u32), ReadError>
    requires { at ≤ length tokens.now }
    ensures value { GivesBody (read.body_at tokens.now number at) result }
    ensures within { IfOk result (λ read. (at < read.1) × (read.1 < length tokens.now)) }
{
    inside(alloc, tokens, tokens.len(), number, at)
}
