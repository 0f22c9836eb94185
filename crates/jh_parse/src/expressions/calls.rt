//! Calls, what is assigned, and what is assigned to.
ghost use Rattle.std.specs.Prelude.{◌≡◌, ◌+◌, ◌≤◌, ◌<◌, length, map, IfOk};
ghost use Rattle.jh_operators.specs.lookahead.Answers.{Gives, IsWithin};
ghost use Rattle.jh_parse.specs.expressions.Reading as read;
ghost use Rattle.jh_parse.specs.expressions.Reads.{GivesCall, GivesExpr, GivesRhs};
ghost use Rattle.jh_ast.specs.Bare.{call_tree, expr_tree, rhs_tree};

use crate::expressions::expressions::{expression, member, reads};
use jh_ast::{Call, Expr, Rhs, Word};
use jh_lex::lexer::{Symbol, Token};
use jh_name::Row;
use jh_operators::lookahead::{ReadError, behind, is_plain_word, is_symbol, word};
use std::alloc::Global;

/// Expressions with commas between them.
fn listed(alloc: Global, tokens: &[Token], from: usize) -> Result<(Vec<Expr>, usize), ReadError>
    requires { from ≤ length tokens.now }
    ensures value { Gives (λ read. (map expr_tree read.0.items, read.1)) (read.listed_at tokens.now (length tokens.now) from) result }
    ensures within { IfOk result (λ read. IsWithin (length tokens.now) from read.1) }
{
    let mut at = from;
    let mut made = Vec::new(alloc);
    let mut turns = tokens.len();
    'more: while turns > 0 {
        let (argument, next) = expression(alloc, tokens, at)?;
        made.push(argument)?;
        if !is_symbol(tokens, next, Symbol::Comma) {
            return Ok((made, next));
        }
        at = next + 1;
        turns -= 1;
    }
    Err(ReadError::Refused(at))
}

/// The arguments of a call in their brackets.
#[tactic(auto, unfolding(crate::specs::expressions::Reading::arguments_at, jh_operators::specs::lookahead::Choices::and_then, jh_operators::specs::lookahead::Choices::choose))]
fn arguments(alloc: Global, tokens: &[Token], at: usize) -> Result<(Vec<Expr>, usize), ReadError>
    requires { at ≤ length tokens.now }
    ensures value { Gives (λ read. (map expr_tree read.0.items, read.1)) (read.arguments_at tokens.now at) result }
    ensures within { IfOk result (λ read. IsWithin (length tokens.now) at read.1) }
{
    let _opening = behind(tokens, at, Symbol::LeftParenthesis)?;
    if is_symbol(tokens, at + 1, Symbol::RightParenthesis) {
        return Ok((Vec::new(alloc), at + 2));
    }
    let (made, next) = listed(alloc, tokens, at + 1)?;
    let next = behind(tokens, next, Symbol::RightParenthesis)?;
    Ok((made, next))
}

/// The call at a place whose beginning is read: the operand, the word that is read of it last, and the place after them.
#[tactic(auto, using(jh_ast::proofs::ExprSteps::expr_steps), unfolding(crate::specs::expressions::Reading::call_of, crate::specs::expressions::Reading::called_of, jh_operators::specs::lookahead::Choices::and_then, jh_operators::specs::lookahead::Choices::given))]
pub fn call_after(
    alloc: Global,
    tokens: &[Token],
    at: usize,
    operand: Expr,
    last: Option<Word>,
    next: usize,
) -> Result<(Call, usize), ReadError>
    requires { next ≤ length tokens.now }
    ensures value { GivesCall (read.call_of tokens.now at (expr_tree operand) last next) result }
    ensures within { IfOk result (λ read. IsWithin (length tokens.now) next read.1) }
{
    match last {
        Some(method) => {
            let (args, next) = arguments(alloc, tokens, next)?;
            let args = Row::of(args);
            Ok((
                Call {
                    receiver: Some(operand),
                    method,
                    args,
                },
                next,
            ))
        }
        None => {
            let method = word(alloc, tokens, at)?;
            let (args, next) = arguments(alloc, tokens, next)?;
            let args = Row::of(args);
            Ok((
                Call {
                    receiver: None,
                    method,
                    args,
                },
                next,
            ))
        }
    }
}

/// The call at a place, and the place after it.
#[tactic(auto, using(jh_ast::proofs::ExprSteps::expr_steps), unfolding(crate::specs::expressions::Reading::call_at, jh_operators::specs::lookahead::Choices::and_then))]
pub fn call(alloc: Global, tokens: &[Token], at: usize) -> Result<(Call, usize), ReadError>
    requires { at ≤ length tokens.now }
    ensures value { GivesCall (read.call_at tokens.now at) result }
    ensures within { IfOk result (λ read. IsWithin (length tokens.now) at read.1) }
{
    let (operand, last, next) = reads(alloc, tokens, at)?;
    call_after(alloc, tokens, at, operand, last, next)
}

/// What is assigned to at a place where this is read: a word alone, or a word that is read of an operand.
#[tactic(auto, using(jh_ast::proofs::ExprSteps::expr_steps), unfolding(crate::specs::expressions::Reading::target_of, jh_operators::specs::lookahead::Choices::choose, jh_operators::specs::lookahead::Choices::given))]
pub fn target_of(
    alloc: Global,
    tokens: &[Token],
    at: usize,
    operand: Expr,
    last: Option<Word>,
) -> Result<Expr, ReadError>
    ensures value { Gives expr_tree (read.target_of tokens.now at (expr_tree operand) last) result }
{
    match last {
        Some(word) => {
            let made = member(alloc, operand, word)?;
            Ok(made)
        }
        None => {
            if !is_plain_word(tokens, at) {
                return Err(ReadError::Refused(at));
            }
            Ok(operand)
        }
    }
}

/// A new object, after its word `new`.
#[tactic(auto, using(crate::proofs::expressions::Rests::rhs_steps), unfolding(crate::specs::expressions::Reading::new_at, jh_operators::specs::lookahead::Choices::and_then))]
fn new_object(alloc: Global, tokens: &[Token], at: usize) -> Result<(Rhs, usize), ReadError>
    requires { at < length tokens.now }
    ensures value { GivesRhs (read.new_at tokens.now at) result }
    ensures within { IfOk result (λ read. IsWithin (length tokens.now) at read.1) }
{
    let class = word(alloc, tokens, at + 1)?;
    let _opening = behind(tokens, at + 2, Symbol::LeftParenthesis)?;
    let _closing = behind(tokens, at + 3, Symbol::RightParenthesis)?;
    Ok((Rhs::New(class), at + 4))
}

/// What is assigned: the value of an expression, the result of a call or a new object, and the place after it.
#[tactic(auto, using(jh_ast::proofs::ExprSteps::expr_steps, crate::proofs::expressions::Rests::rhs_steps), unfolding(crate::specs::expressions::Reading::rhs_at, jh_operators::specs::lookahead::Choices::and_then, jh_operators::specs::lookahead::Choices::choose))]
pub fn rhs(alloc: Global, tokens: &[Token], at: usize) -> Result<(Rhs, usize), ReadError>
    requires { at ≤ length tokens.now }
    ensures value { GivesRhs (read.rhs_at tokens.now at) result }
    ensures within { IfOk result (λ read. IsWithin (length tokens.now) at read.1) }
{
    if is_symbol(tokens, at, Symbol::New) {
        return new_object(alloc, tokens, at);
    }
    let (value, next) = expression(alloc, tokens, at)?;
    if !is_symbol(tokens, next, Symbol::LeftParenthesis) {
        return Ok((Rhs::Value(value), next));
    }
    let (call, next) = call(alloc, tokens, at)?;
    Ok((Rhs::Call(call), next))
}
