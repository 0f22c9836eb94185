//! Expressions: what is read at a place of the tokens, in the order of the grammar. `room` is a number of levels that is more
//! than enough; the nesting of a source is what bounds the recursion.
ghost use Rattle.std.specs.Prelude.{◌≡◌, ◌+◌, ◌≤◌, ◌<◌, length, IfOk};
ghost use Rattle.jh_operators.specs.lookahead.Answers.{IsWithin};
ghost use Rattle.jh_operators.specs.lookahead.Standing.{place_at};
ghost use Rattle.jh_parse.specs.expressions.Reading as read;
ghost use Rattle.jh_parse.specs.expressions.Reads.{GivesExpr, GivesRead};
ghost use Rattle.jh_parse.specs.expressions.Expressions.{binary_of, member_of};
ghost use Rattle.jh_ast.specs.Bare.{expr_body_tree, expr_tree};
ghost use Rattle.jh_ast.specs.Exprs as expr;

use crate::expressions::operators::{constant, operator};
use jh_ast::{Expr, ExprBody, Op, Word};
use jh_lex::lexer::{Symbol, Token};
use jh_name::NoMemory;
use jh_operators::lookahead::{
    ReadError, behind, boxed, boxed_two, is_plain_word, is_symbol, number, place, word,
};
use std::alloc::Global;

#[tactic(auto, using(jh_ast::proofs::ExprSteps::expr_steps))]
fn at_place(tokens: &[Token], at: usize, body: ExprBody) -> Expr
    ensures { expr_tree result ≡ expr_body_tree (place_at tokens.now at) body }
{
    Expr {
        place: place(tokens, at),
        body,
    }
}

#[tactic(auto, using(jh_ast::proofs::ExprSteps::expr_steps))]
fn binary(alloc: Global, operator: Op, left: Expr, right: Expr) -> Result<Expr, NoMemory>
    ensures { IfOk result (λ made. expr_tree made ≡ binary_of operator (expr_tree left) (expr_tree right)) }
{
    let place = left.place;
    let (left, right) = boxed_two(alloc, left, right)?;
    Ok(Expr {
        place,
        body: ExprBody::Binary(operator, left, right),
    })
}

/// A word that is read of an expression.
#[tactic(auto, using(jh_ast::proofs::ExprSteps::expr_steps))]
pub(crate) fn member(alloc: Global, left: Expr, word: Word) -> Result<Expr, NoMemory>
    ensures { IfOk result (λ made. expr_tree made ≡ member_of (expr_tree left) word) }
{
    let place = left.place;
    let left = boxed(alloc, left)?;
    Ok(Expr {
        place,
        body: ExprBody::Member(left, word),
    })
}

/// An expression and the word that is read of it last, as one.
#[tactic(auto, using(jh_ast::proofs::ExprSteps::expr_steps), unfolding(crate::specs::expressions::Reading::with_last, jh_operators::specs::lookahead::Choices::given))]
fn with_last(alloc: Global, left: Expr, last: Option<Word>) -> Result<Expr, NoMemory>
    ensures { IfOk result (λ made. expr_tree made ≡ read.with_last (expr_tree left) last) }
{
    match last {
        None => Ok(left),
        Some(word) => member(alloc, left, word),
    }
}

/// Words after dots, of which the last is kept apart.
#[tactic(auto, using(jh_ast::proofs::ExprSteps::expr_steps, crate::proofs::expressions::Levels::level_steps), unfolding(crate::specs::expressions::Reading::dots_at, jh_operators::specs::lookahead::Choices::and_then, jh_operators::specs::lookahead::Choices::choose, jh_operators::specs::lookahead::Choices::given))]
fn dots(
    alloc: Global,
    tokens: &[Token],
    room: usize,
    left: Expr,
    last: Option<Word>,
    at: usize,
) -> Result<(Expr, Option<Word>, usize), ReadError>
    requires { at ≤ length tokens.now }
    ensures value { GivesRead (read.dots_at tokens.now room (expr_tree left) last at) result }
    ensures within { IfOk result (λ read. (at ≤ read.2) × (read.2 ≤ length tokens.now)) }
{
    if room == 0 {
        return Err(ReadError::Refused(at));
    }
    if !is_symbol(tokens, at, Symbol::Dot) {
        return Ok((left, last, at));
    }
    let word = word(alloc, tokens, at + 1)?;
    let left = with_last(alloc, left, last)?;
    dots(alloc, tokens, room - 1, left, Some(word), at + 2)
}

/// A word, a number or a constant.
#[tactic(auto, using(jh_ast::proofs::ExprSteps::expr_steps, crate::proofs::expressions::Levels::level_steps), unfolding(crate::specs::expressions::Reading::simple_at, jh_operators::specs::lookahead::Choices::and_then, jh_operators::specs::lookahead::Choices::choose, jh_operators::specs::lookahead::Choices::given))]
fn simple(alloc: Global, tokens: &[Token], at: usize) -> Result<(Expr, usize), ReadError>
    requires { at ≤ length tokens.now }
    ensures value { GivesExpr (read.simple_at tokens.now at) result }
    ensures within { IfOk result (λ read. IsWithin (length tokens.now) at read.1) }
{
    if is_plain_word(tokens, at) {
        let word = word(alloc, tokens, at)?;
        return Ok((at_place(tokens, at, ExprBody::Name(word)), at + 1));
    }
    if let Some(number) = number(tokens, at) {
        return Ok((at_place(tokens, at, ExprBody::Number(number)), at + 1));
    }
    match constant(tokens, at) {
        Some(body) => Ok((at_place(tokens, at, body), at + 1)),
        None => Err(ReadError::Refused(at)),
    }
}

#[tactic(auto, using(jh_ast::proofs::ExprSteps::expr_steps))]
fn moved(tokens: &[Token], at: usize, inner: Expr) -> Expr
    ensures { expr_tree result ≡ expr.moved (place_at tokens.now at) (expr_tree inner) }
{
    Expr {
        place: place(tokens, at),
        body: inner.body,
    }
}

/// Operands with the operators of a level, deeper inside.
#[cycle(reading)]
#[tactic(auto, using(jh_ast::proofs::ExprSteps::expr_steps, crate::proofs::expressions::Levels::level_steps), unfolding(crate::specs::expressions::Reading::level_of, jh_operators::specs::lookahead::Choices::and_then, jh_operators::specs::lookahead::Choices::choose, jh_operators::specs::lookahead::Choices::given))]
fn inner(
    alloc: Global,
    tokens: &[Token],
    room: usize,
    level: u8,
    at: usize,
) -> Result<(Expr, usize), ReadError>
    requires at_place { at ≤ length tokens.now }
    requires level { level ≤ 6 }
    ensures value { GivesExpr ((read.inside tokens.now room).level level at) result }
    ensures within { IfOk result (λ read. IsWithin (length tokens.now) at read.1) }
{
    if room == 0 {
        return Err(ReadError::Refused(at));
    }
    ranked(alloc, tokens, room - 1, level, at)
}

/// Operands with the operators of a level, which group to the left.
#[cycle(reading)]
#[tactic(auto, using(jh_ast::proofs::ExprSteps::expr_steps, crate::proofs::expressions::Levels::level_steps), unfolding(crate::specs::expressions::Reading::level_of, jh_operators::specs::lookahead::Choices::and_then, jh_operators::specs::lookahead::Choices::choose, jh_operators::specs::lookahead::Choices::given))]
fn ranked(
    alloc: Global,
    tokens: &[Token],
    room: usize,
    level: u8,
    at: usize,
) -> Result<(Expr, usize), ReadError>
    requires at_place { at ≤ length tokens.now }
    requires level { level ≤ 6 }
    ensures value { GivesExpr (read.level_of tokens.now (read.inside tokens.now room) level at) result }
    ensures within { IfOk result (λ read. IsWithin (length tokens.now) at read.1) }
{
    if level == 0 {
        return unary(alloc, tokens, room, at);
    }
    let (first, next) = ranked(alloc, tokens, room, level - 1, at)?;
    chain(alloc, tokens, room, level - 1, first, next)
}

/// Operators and operands after an operand; comparisons stand once.
#[cycle(reading)]
#[tactic(auto, using(jh_ast::proofs::ExprSteps::expr_steps, crate::proofs::expressions::Levels::level_steps), unfolding(crate::specs::expressions::Reading::chain_of, jh_operators::specs::lookahead::Choices::and_then, jh_operators::specs::lookahead::Choices::choose, jh_operators::specs::lookahead::Choices::given))]
fn chain(
    alloc: Global,
    tokens: &[Token],
    room: usize,
    level: u8,
    first: Expr,
    at: usize,
) -> Result<(Expr, usize), ReadError>
    requires at_place { at ≤ length tokens.now }
    requires level { level ≤ 6 }
    ensures value { GivesExpr (read.chain_of tokens.now (read.inside tokens.now room) level (expr_tree first) at) result }
    ensures within { IfOk result (λ read. (at ≤ read.1) × (read.1 ≤ length tokens.now)) }
{
    match operator(tokens, 2 + level, at) {
        None => Ok((first, at)),
        Some(operator) => {
            let (second, next) = ranked(alloc, tokens, room, level, at + 1)?;
            let both = binary(alloc, operator, first, second)?;
            if level == 2 {
                return Ok((both, next));
            }
            if room == 0 {
                return Err(ReadError::Refused(next));
            }
            chain(alloc, tokens, room - 1, level, both, next)
        }
    }
}

/// An operand with signs before it.
#[cycle(reading)]
#[tactic(auto, using(jh_ast::proofs::ExprSteps::expr_steps, crate::proofs::expressions::Levels::level_steps), unfolding(crate::specs::expressions::Reading::unary_of, jh_operators::specs::lookahead::Choices::and_then, jh_operators::specs::lookahead::Choices::choose, jh_operators::specs::lookahead::Choices::given))]
fn unary(
    alloc: Global,
    tokens: &[Token],
    room: usize,
    at: usize,
) -> Result<(Expr, usize), ReadError>
    requires at_place { at ≤ length tokens.now }
    ensures value { GivesExpr (read.unary_of tokens.now (read.inside tokens.now room) at) result }
    ensures within { IfOk result (λ read. IsWithin (length tokens.now) at read.1) }
{
    if is_symbol(tokens, at, Symbol::Bang) {
        return negated(alloc, tokens, room, at);
    }
    if is_symbol(tokens, at, Symbol::Minus) {
        return minus(alloc, tokens, room, at);
    }
    postfix(alloc, tokens, room, at)
}

/// An operand after `!`.
#[cycle(reading)]
#[tactic(auto, using(jh_ast::proofs::ExprSteps::expr_steps, crate::proofs::expressions::Levels::level_steps), unfolding(crate::specs::expressions::Reading::signed_of, jh_operators::specs::lookahead::Choices::and_then, jh_operators::specs::lookahead::Choices::choose, jh_operators::specs::lookahead::Choices::given))]
fn negated(
    alloc: Global,
    tokens: &[Token],
    room: usize,
    at: usize,
) -> Result<(Expr, usize), ReadError>
    requires at_place { at < length tokens.now }
    ensures value { GivesExpr (read.signed_of tokens.now (read.inside tokens.now room) expr.negation at) result }
    ensures within { IfOk result (λ read. IsWithin (length tokens.now) at read.1) }
{
    if room == 0 {
        return Err(ReadError::Refused(at));
    }
    let (inner, next) = unary(alloc, tokens, room - 1, at + 1)?;
    let inner = boxed(alloc, inner)?;
    Ok((at_place(tokens, at, ExprBody::Not(inner)), next))
}

/// An operand after `-`.
#[cycle(reading)]
#[tactic(auto, using(jh_ast::proofs::ExprSteps::expr_steps, crate::proofs::expressions::Levels::level_steps), unfolding(crate::specs::expressions::Reading::signed_of, jh_operators::specs::lookahead::Choices::and_then, jh_operators::specs::lookahead::Choices::choose, jh_operators::specs::lookahead::Choices::given))]
fn minus(
    alloc: Global,
    tokens: &[Token],
    room: usize,
    at: usize,
) -> Result<(Expr, usize), ReadError>
    requires at_place { at < length tokens.now }
    ensures value { GivesExpr (read.signed_of tokens.now (read.inside tokens.now room) expr.minus at) result }
    ensures within { IfOk result (λ read. IsWithin (length tokens.now) at read.1) }
{
    if room == 0 {
        return Err(ReadError::Refused(at));
    }
    let (inner, next) = unary(alloc, tokens, room - 1, at + 1)?;
    let inner = boxed(alloc, inner)?;
    Ok((at_place(tokens, at, ExprBody::Minus(inner)), next))
}

/// An operand and the words after its dots.
#[cycle(reading)]
#[tactic(auto, using(jh_ast::proofs::ExprSteps::expr_steps, crate::proofs::expressions::Levels::level_steps), unfolding(crate::specs::expressions::Reading::postfix_of, jh_operators::specs::lookahead::Choices::and_then, jh_operators::specs::lookahead::Choices::choose, jh_operators::specs::lookahead::Choices::given))]
fn postfix(
    alloc: Global,
    tokens: &[Token],
    room: usize,
    at: usize,
) -> Result<(Expr, usize), ReadError>
    requires at_place { at ≤ length tokens.now }
    ensures value { GivesExpr (read.postfix_of tokens.now (read.inside tokens.now room) at) result }
    ensures within { IfOk result (λ read. IsWithin (length tokens.now) at read.1) }
{
    let (left, last, next) = words(alloc, tokens, room, at)?;
    let whole = with_last(alloc, left, last)?;
    Ok((whole, next))
}

/// An operand and the words after its dots, of which the last is kept apart.
#[cycle(reading)]
#[tactic(auto, using(jh_ast::proofs::ExprSteps::expr_steps, crate::proofs::expressions::Levels::level_steps), unfolding(crate::specs::expressions::Reading::reads_of, jh_operators::specs::lookahead::Choices::and_then, jh_operators::specs::lookahead::Choices::choose, jh_operators::specs::lookahead::Choices::given))]
fn words(
    alloc: Global,
    tokens: &[Token],
    room: usize,
    at: usize,
) -> Result<(Expr, Option<Word>, usize), ReadError>
    requires at_place { at ≤ length tokens.now }
    ensures value { GivesRead (read.reads_of tokens.now (read.inside tokens.now room) at) result }
    ensures within { IfOk result (λ read. IsWithin (length tokens.now) at read.2) }
{
    let (first, next) = primary(alloc, tokens, room, at)?;
    dots(alloc, tokens, tokens.len() + 1, first, None, next)
}

/// An operand without parts outside brackets.
#[cycle(reading)]
#[tactic(auto, using(jh_ast::proofs::ExprSteps::expr_steps, crate::proofs::expressions::Levels::level_steps), unfolding(crate::specs::expressions::Reading::primary_of, jh_operators::specs::lookahead::Choices::and_then, jh_operators::specs::lookahead::Choices::choose, jh_operators::specs::lookahead::Choices::given))]
fn primary(
    alloc: Global,
    tokens: &[Token],
    room: usize,
    at: usize,
) -> Result<(Expr, usize), ReadError>
    requires at_place { at ≤ length tokens.now }
    ensures value { GivesExpr (read.primary_of tokens.now (read.inside tokens.now room) at) result }
    ensures within { IfOk result (λ read. IsWithin (length tokens.now) at read.1) }
{
    if is_symbol(tokens, at, Symbol::LeftParenthesis) {
        return bracket(alloc, tokens, room, at);
    }
    simple(alloc, tokens, at)
}

/// An expression in brackets.
#[cycle(reading)]
#[tactic(auto, using(jh_ast::proofs::ExprSteps::expr_steps, crate::proofs::expressions::Levels::level_steps), unfolding(crate::specs::expressions::Reading::bracket_of, jh_operators::specs::lookahead::Choices::and_then, jh_operators::specs::lookahead::Choices::choose, jh_operators::specs::lookahead::Choices::given))]
fn bracket(
    alloc: Global,
    tokens: &[Token],
    room: usize,
    at: usize,
) -> Result<(Expr, usize), ReadError>
    requires at_place { at < length tokens.now }
    ensures value { GivesExpr (read.bracket_of tokens.now (read.inside tokens.now room) at) result }
    ensures within { IfOk result (λ read. IsWithin (length tokens.now) at read.1) }
{
    let (inner, next) = inner(alloc, tokens, room, 6, at + 1)?;
    let next = behind(tokens, next, Symbol::RightParenthesis)?;
    Ok((moved(tokens, at, inner), next))
}

/// The expression at a place, and the place after it.
#[tactic(auto, using(jh_ast::proofs::ExprSteps::expr_steps, crate::proofs::expressions::Levels::level_steps), unfolding(crate::specs::expressions::Reading::expression_at, jh_operators::specs::lookahead::Choices::and_then, jh_operators::specs::lookahead::Choices::choose, jh_operators::specs::lookahead::Choices::given))]
pub fn expression(alloc: Global, tokens: &[Token], at: usize) -> Result<(Expr, usize), ReadError>
    requires { at ≤ length tokens.now }
    ensures value { GivesExpr (read.expression_at tokens.now at) result }
    ensures within { IfOk result (λ read. IsWithin (length tokens.now) at read.1) }
{
    ranked(alloc, tokens, tokens.len(), 6, at)
}

/// An operand, the words after its dots, of which the last is answered apart, and the place after them: the beginning of a call or of what is assigned to.
#[tactic(auto, using(jh_ast::proofs::ExprSteps::expr_steps, crate::proofs::expressions::Levels::level_steps), unfolding(crate::specs::expressions::Reading::reads_at, jh_operators::specs::lookahead::Choices::and_then, jh_operators::specs::lookahead::Choices::choose, jh_operators::specs::lookahead::Choices::given))]
pub fn reads(
    alloc: Global,
    tokens: &[Token],
    at: usize,
) -> Result<(Expr, Option<Word>, usize), ReadError>
    requires { at ≤ length tokens.now }
    ensures value { GivesRead (read.reads_at tokens.now at) result }
    ensures within { IfOk result (λ read. IsWithin (length tokens.now) at read.2) }
{
    words(alloc, tokens, tokens.len(), at)
}
