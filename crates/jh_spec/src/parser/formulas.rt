//! Formulas: what is read at a place of the tokens, in the order of the grammar from what stands inside to what binds
//! loosest. `room` is a number of levels that is more than enough; the nesting of a source is what bounds the recursion.
ghost use Rattle.std.specs.Prelude.{◌≡◌, ◌+◌, ◌≤◌, ◌<◌, ◌++◌, ◌∷◌, [], length, IfOk, IsTrue, Some};
ghost use Rattle.jh_operators.specs.lookahead.Answers.{Gives, IsWithin};
ghost use Rattle.jh_operators.specs.lookahead.Choices.{and_then};
ghost use Rattle.jh_operators.specs.lookahead.Standing.{place_at};
ghost use Rattle.jh_spec.specs.parser.Reading as read;
ghost use Rattle.jh_spec.specs.parser.Reads.{GivesBoxed, GivesForms, GivesWords, before, bound_by, signed_by};
ghost use Rattle.jh_spec.specs.parser.Formulas.{binary_of};
ghost use Rattle.jh_ast.specs.Bare.{form_body_tree, form_tree, form_trees};
ghost use Rattle.jh_ast.specs.Forms as form;

use crate::parser::operators::{closes, constant};
use jh_ast::{SpecBody, SpecOp, SpecTree, Word};
use jh_lex::lexer::{Symbol, Token};
use jh_name::{NoMemory, Row};
use jh_operators::lookahead::{
    ReadError, behind, boxed, is_name, is_number, is_plain_word, is_symbol, is_word, name, number,
    place, word,
};
use jh_operators::operators::operator;
use std::alloc::Global;

/// A quantifier.
#[derive(Clone, Copy)]
pub(crate) enum Binder {
    /// `ALL`
    All,
    /// `EX`
    Ex,
}

/// What stands before an operand.
#[derive(Clone, Copy)]
pub(crate) enum Sign {
    /// `-`
    Minus,
    /// `old`
    Old,
    /// `card`
    Card,
}

/// A formula at the place of a token. Formulas are handed on in boxes, since they are wide.
#[tactic(auto, using(jh_ast::proofs::FormSteps::form_steps))]
pub(crate) fn at_place(
    alloc: Global,
    tokens: &[Token],
    at: usize,
    body: SpecBody,
) -> Result<Box<SpecTree>, NoMemory>
    ensures { IfOk result (λ made. form_tree made.value ≡ form_body_tree (place_at tokens.now at) body) }
{
    let place = place(tokens, at);
    let made = boxed(alloc, SpecTree { place, body })?;
    Ok(made)
}

/// Two operands with an operator between them.
#[tactic(auto, using(jh_ast::proofs::FormSteps::form_steps, jh_ast::proofs::Moves::place_steps))]
fn binary(
    alloc: Global,
    operator: SpecOp,
    left: Box<SpecTree>,
    right: Box<SpecTree>,
) -> Result<Box<SpecTree>, NoMemory>
    ensures { IfOk result (λ made. form_tree made.value ≡ binary_of operator (form_tree left.value) (form_tree right.value)) }
{
    let place = left.place;
    let body = SpecBody::Binary(operator, left, right);
    let made = boxed(alloc, SpecTree { place, body })?;
    Ok(made)
}

#[tactic(auto, using(jh_ast::proofs::FormSteps::form_steps, jh_ast::proofs::Moves::place_steps))]
fn member(alloc: Global, left: Box<SpecTree>, word: Word) -> Result<Box<SpecTree>, NoMemory>
    ensures { IfOk result (λ made. form_tree made.value ≡ form.member (form.place_of (form_tree left.value)) (form_tree left.value) word) }
{
    let place = left.place;
    let body = SpecBody::Member(left, word);
    let made = boxed(alloc, SpecTree { place, body })?;
    Ok(made)
}

/// Names with commas between them, after those that are there.
#[tactic(auto, using(crate::proofs::parser::Turns::turn_steps), unfolding(crate::specs::parser::Reading::names_at, jh_operators::specs::lookahead::Choices::and_then, jh_operators::specs::lookahead::Choices::choose, jh_operators::specs::lookahead::Choices::given))]
fn names(
    alloc: Global,
    tokens: &[Token],
    room: usize,
    made: &mut Vec<Word>,
    at: usize,
) -> Result<usize, ReadError>
    requires { at ≤ length tokens.now }
    ensures value { GivesWords made.new.items (and_then (read.names_at tokens.now room at) (λ r. Some (made.old.items ++ r.0, r.1))) result }
    ensures within { IfOk result (IsWithin (length tokens.now) at) }
{
    if room == 0 {
        return Err(ReadError::Refused(at));
    }
    let word = name(alloc, tokens, at)?;
    made.push(word)?;
    if is_symbol(tokens, at + 1, Symbol::Comma) {
        return names(alloc, tokens, room - 1, made, at + 2);
    }
    Ok(at + 1)
}

/// So many words at most, after those that are there.
#[tactic(auto, using(crate::proofs::parser::Turns::turn_steps), unfolding(crate::specs::parser::Reading::words_at, jh_operators::specs::lookahead::Choices::and_then, jh_operators::specs::lookahead::Choices::choose, jh_operators::specs::lookahead::Choices::given))]
fn words(
    alloc: Global,
    tokens: &[Token],
    room: u8,
    made: &mut Vec<Word>,
    at: usize,
) -> Result<usize, ReadError>
    requires { at ≤ length tokens.now }
    ensures value { GivesWords made.new.items (and_then (read.words_at tokens.now room at) (λ r. Some (made.old.items ++ r.0, r.1))) result }
    ensures within { IfOk result (λ next. (at ≤ next) × (next ≤ length tokens.now)) }
{
    if room == 0 {
        return Ok(at);
    }
    if !is_plain_word(tokens, at) {
        return Ok(at);
    }
    let word = word(alloc, tokens, at)?;
    made.push(word)?;
    words(alloc, tokens, room - 1, made, at + 1)
}

/// The names that a quantifier binds.
#[tactic(auto, using(jh_ast::proofs::FormSteps::form_steps), unfolding(crate::specs::parser::Reading::bound_at, jh_operators::specs::lookahead::Choices::and_then, jh_operators::specs::lookahead::Choices::choose, jh_operators::specs::lookahead::Choices::given))]
fn bound(alloc: Global, tokens: &[Token], at: usize) -> Result<(Vec<Word>, usize), ReadError>
    requires { at ≤ length tokens.now }
    ensures value { Gives (λ read. (read.0.items, read.1)) (read.bound_at tokens.now at) result }
    ensures within { IfOk result (λ read. (at ≤ read.1) × (read.1 ≤ length tokens.now)) }
{
    let mut made = Vec::new(alloc);
    let next = words(alloc, tokens, 8, &mut made, at)?;
    if made.len() == 0 {
        return Err(ReadError::Refused(at));
    }
    Ok((made, next))
}

/// The dot after bound names, with a type before it or none.
#[tactic(auto, unfolding(crate::specs::parser::Reading::typed_at, jh_operators::specs::lookahead::Choices::and_then, jh_operators::specs::lookahead::Choices::choose, jh_operators::specs::lookahead::Choices::given))]
fn typed(tokens: &[Token], at: usize) -> Result<usize, ReadError>
    requires { at ≤ length tokens.now }
    ensures value { Gives (λ next. next) (read.typed_at tokens.now at) result }
    ensures within { IfOk result (λ next. (at < next) × (next ≤ length tokens.now)) }
{
    if !is_symbol(tokens, at, Symbol::ColonColon) {
        return behind(tokens, at, Symbol::Dot);
    }
    if !is_word(tokens, at + 1, "obj") {
        return Err(ReadError::Refused(at + 1));
    }
    behind(tokens, at + 2, Symbol::Dot)
}

/// Reads of fields after what is read.
#[tactic(auto, using(jh_ast::proofs::FormSteps::form_steps, crate::proofs::parser::Turns::turn_steps), unfolding(crate::specs::parser::Reading::dots_at, jh_operators::specs::lookahead::Choices::and_then, jh_operators::specs::lookahead::Choices::choose, jh_operators::specs::lookahead::Choices::given))]
fn dots(
    alloc: Global,
    tokens: &[Token],
    room: usize,
    left: Box<SpecTree>,
    at: usize,
) -> Result<(Box<SpecTree>, usize), ReadError>
    requires { at ≤ length tokens.now }
    ensures value { GivesBoxed (read.dots_at tokens.now room (form_tree left.value) at) result }
    ensures within { IfOk result (λ read. (at ≤ read.1) × (read.1 ≤ length tokens.now)) }
{
    if room == 0 {
        return Err(ReadError::Refused(at));
    }
    if !is_symbol(tokens, at, Symbol::DotDot) {
        return Ok((left, at));
    }
    let word = name(alloc, tokens, at + 1)?;
    let left = member(alloc, left, word)?;
    dots(alloc, tokens, room - 1, left, at + 2)
}

/// A name, a number or a constant.
#[tactic(auto, using(jh_ast::proofs::FormSteps::form_steps), unfolding(crate::specs::parser::Reading::simple_at, jh_operators::specs::lookahead::Choices::and_then, jh_operators::specs::lookahead::Choices::choose, jh_operators::specs::lookahead::Choices::given))]
fn simple(alloc: Global, tokens: &[Token], at: usize) -> Result<(Box<SpecTree>, usize), ReadError>
    requires { at ≤ length tokens.now }
    ensures value { GivesBoxed (read.simple_at tokens.now at) result }
    ensures within { IfOk result (λ read. IsWithin (length tokens.now) at read.1) }
{
    if is_name(tokens, at) {
        let word = name(alloc, tokens, at)?;
        let made = at_place(alloc, tokens, at, SpecBody::Name(word))?;
        return Ok((made, at + 1));
    }
    if let Some(number) = number(tokens, at) {
        let made = at_place(alloc, tokens, at, SpecBody::Number(number))?;
        return Ok((made, at + 1));
    }
    match constant(tokens, at) {
        Some(body) => {
            let made = at_place(alloc, tokens, at, body)?;
            Ok((made, at + 1))
        }
        None => Err(ReadError::Refused(at)),
    }
}

/// `tree` and its fields.
#[tactic(auto, using(jh_ast::proofs::FormSteps::form_steps), unfolding(crate::specs::parser::Reading::forest_of, jh_operators::specs::lookahead::Choices::and_then, jh_operators::specs::lookahead::Choices::choose, jh_operators::specs::lookahead::Choices::given))]
fn forest(alloc: Global, tokens: &[Token], at: usize) -> Result<(Box<SpecTree>, usize), ReadError>
    requires { at < length tokens.now }
    ensures value { GivesBoxed (read.forest_of tokens.now at) result }
    ensures within { IfOk result (λ read. IsWithin (length tokens.now) at read.1) }
{
    let _opening = behind(tokens, at + 1, Symbol::LeftBracket)?;
    let mut made = Vec::new(alloc);
    let next = names(alloc, tokens, tokens.len() + 1, &mut made, at + 2)?;
    let next = behind(tokens, next, Symbol::RightBracket)?;
    let fields = Row::of(made);
    let made = at_place(alloc, tokens, at, SpecBody::Tree(fields))?;
    Ok((made, next))
}

/// `( % x y .` after a place.
#[tactic(auto, unfolding(crate::specs::parser::Reading::pair_at, jh_operators::specs::lookahead::Choices::and_then, jh_operators::specs::lookahead::Choices::choose, jh_operators::specs::lookahead::Choices::given))]
fn pair(alloc: Global, tokens: &[Token], at: usize) -> Result<(Word, Word), ReadError>
    requires { at < length tokens.now }
    ensures value { Gives (λ read. read) (read.pair_at tokens.now at) result }
    ensures within { IfOk result (λ _. at + 6 ≤ length tokens.now) }
{
    let _opening = behind(tokens, at + 1, Symbol::LeftParenthesis)?;
    let _percent = behind(tokens, at + 2, Symbol::Percent)?;
    let first = word(alloc, tokens, at + 3)?;
    let second = word(alloc, tokens, at + 4)?;
    let _dot = behind(tokens, at + 5, Symbol::Dot)?;
    Ok((first, second))
}

/// What stands in brackets, at the place of the bracket.
fn moved(tokens: &[Token], at: usize, inner: Box<SpecTree>) -> Box<SpecTree>
    ensures { form_tree result.value ≡ form.moved (place_at tokens.now at) (form_tree inner.value) }
{
    let mut inner = inner;
    inner.place = place(tokens, at);
    inner
}

/// A quantifier at the place of a token.
#[tactic(auto, using(jh_ast::proofs::FormSteps::form_steps))]
fn bound_tree(
    alloc: Global,
    tokens: &[Token],
    at: usize,
    binder: Binder,
    names: Row<Word>,
    body: Box<SpecTree>,
) -> Result<Box<SpecTree>, NoMemory>
    ensures { IfOk result (λ made. form_tree made.value ≡ bound_by binder (place_at tokens.now at) names (form_tree body.value)) }
{
    match binder {
        Binder::All => at_place(alloc, tokens, at, SpecBody::All(names, body)),
        Binder::Ex => at_place(alloc, tokens, at, SpecBody::Ex(names, body)),
    }
}

/// An operand with a sign or a word before it, at the place of a token.
#[tactic(auto, using(jh_ast::proofs::FormSteps::form_steps))]
fn signed_tree(
    alloc: Global,
    tokens: &[Token],
    at: usize,
    sign: Sign,
    inner: Box<SpecTree>,
) -> Result<Box<SpecTree>, NoMemory>
    ensures { IfOk result (λ made. form_tree made.value ≡ signed_by sign (place_at tokens.now at) (form_tree inner.value)) }
{
    match sign {
        Sign::Minus => at_place(alloc, tokens, at, SpecBody::Minus(inner)),
        Sign::Old => at_place(alloc, tokens, at, SpecBody::Old(inner)),
        Sign::Card => at_place(alloc, tokens, at, SpecBody::Card(inner)),
    }
}

fn is_dvd(tokens: &[Token], at: usize) -> bool
    requires { at ≤ length tokens.now }
    ensures value { result ≡ read.is_dvd_at tokens.now at }
    ensures within { IsTrue result → at + 2 ≤ length tokens.now }
{
    is_number(tokens, at) && is_symbol(tokens, at + 1, Symbol::Dvd)
}

fn is_compr(tokens: &[Token], at: usize) -> bool
    requires { at < length tokens.now }
    ensures value { result ≡ read.is_compr_at tokens.now at }
    ensures within { IsTrue result → at + 3 ≤ length tokens.now }
{
    is_plain_word(tokens, at + 1) && is_symbol(tokens, at + 2, Symbol::Dot)
}

/// An operand, in front of which a quantifier may stand.
#[cycle(reading)]
#[tactic(auto, using(jh_ast::proofs::FormSteps::form_steps, crate::proofs::parser::Turns::turn_steps, crate::proofs::parser::Levels::level_steps), unfolding(jh_operators::specs::lookahead::Choices::and_then, jh_operators::specs::lookahead::Choices::choose, jh_operators::specs::lookahead::Choices::given))]
fn operand(
    alloc: Global,
    tokens: &[Token],
    room: usize,
    level: u8,
    at: usize,
) -> Result<(Box<SpecTree>, usize), ReadError>
    requires at_place { at ≤ length tokens.now }
    requires level { level ≤ 3 }
    ensures value { GivesBoxed ((read.inside tokens.now room).operand level at) result }
    ensures within { IfOk result (λ read. IsWithin (length tokens.now) at read.1) }
{
    if room == 0 {
        return Err(ReadError::Refused(at));
    }
    open_operand(alloc, tokens, room - 1, level, at)
}

/// An operand.
#[cycle(reading)]
#[tactic(auto, using(jh_ast::proofs::FormSteps::form_steps, crate::proofs::parser::Turns::turn_steps, crate::proofs::parser::Levels::level_steps), unfolding(crate::specs::parser::Reading::operand_of, jh_operators::specs::lookahead::Choices::and_then, jh_operators::specs::lookahead::Choices::choose, jh_operators::specs::lookahead::Choices::given))]
pub(crate) fn open_operand(
    alloc: Global,
    tokens: &[Token],
    room: usize,
    level: u8,
    at: usize,
) -> Result<(Box<SpecTree>, usize), ReadError>
    requires at_place { at ≤ length tokens.now }
    requires level { level ≤ 3 }
    ensures value { GivesBoxed (read.operand_of tokens.now (read.inside tokens.now room) level at) result }
    ensures within { IfOk result (λ read. IsWithin (length tokens.now) at read.1) }
{
    if is_symbol(tokens, at, Symbol::All) {
        return quantified(alloc, tokens, room, Binder::All, at);
    }
    if is_symbol(tokens, at, Symbol::Ex) {
        return quantified(alloc, tokens, room, Binder::Ex, at);
    }
    right(alloc, tokens, room, level, at)
}

/// A quantifier, the names that it binds and what it says of them.
#[cycle(reading)]
#[tactic(auto, using(jh_ast::proofs::FormSteps::form_steps, crate::proofs::parser::Turns::turn_steps, crate::proofs::parser::Levels::level_steps), unfolding(crate::specs::parser::Reading::quantified_of, jh_operators::specs::lookahead::Choices::and_then, jh_operators::specs::lookahead::Choices::choose, jh_operators::specs::lookahead::Choices::given))]
fn quantified(
    alloc: Global,
    tokens: &[Token],
    room: usize,
    binder: Binder,
    at: usize,
) -> Result<(Box<SpecTree>, usize), ReadError>
    requires at_place { at < length tokens.now }
    ensures value { GivesBoxed (read.quantified_of tokens.now (read.inside tokens.now room) (bound_by binder) at) result }
    ensures within { IfOk result (λ read. IsWithin (length tokens.now) at read.1) }
{
    let (names, next) = bound(alloc, tokens, at + 1)?;
    let next = typed(tokens, next)?;
    let (body, next) = operand(alloc, tokens, room, 3, next)?;
    if !closes(tokens, next) {
        return Err(ReadError::Refused(next));
    }
    let made = bound_tree(alloc, tokens, at, binder, Row::of(names), body)?;
    Ok((made, next))
}

/// A negation or a comparison; at each level operators that group to the right.
#[cycle(reading)]
#[tactic(auto, using(jh_ast::proofs::FormSteps::form_steps, crate::proofs::parser::Turns::turn_steps, crate::proofs::parser::Levels::level_steps), unfolding(crate::specs::parser::Reading::right_of, jh_operators::specs::lookahead::Choices::and_then, jh_operators::specs::lookahead::Choices::choose, jh_operators::specs::lookahead::Choices::given))]
fn right(
    alloc: Global,
    tokens: &[Token],
    room: usize,
    level: u8,
    at: usize,
) -> Result<(Box<SpecTree>, usize), ReadError>
    requires at_place { at ≤ length tokens.now }
    requires level { level ≤ 3 }
    ensures value { GivesBoxed (read.right_of tokens.now (read.inside tokens.now room) level at) result }
    ensures within { IfOk result (λ read. IsWithin (length tokens.now) at read.1) }
{
    if level == 0 {
        return negation(alloc, tokens, room, at);
    }
    let (left, next) = right(alloc, tokens, room, level - 1, at)?;
    match operator(tokens, 4 + level, next) {
        None => Ok((left, next)),
        Some(operator) => {
            let (right, next) = operand(alloc, tokens, room, level, next + 1)?;
            let both = binary(alloc, operator, left, right)?;
            Ok((both, next))
        }
    }
}

/// A negation or a comparison.
#[cycle(reading)]
#[tactic(auto, using(jh_ast::proofs::FormSteps::form_steps, crate::proofs::parser::Turns::turn_steps, crate::proofs::parser::Levels::level_steps), unfolding(crate::specs::parser::Reading::right_of, jh_operators::specs::lookahead::Choices::and_then, jh_operators::specs::lookahead::Choices::choose, jh_operators::specs::lookahead::Choices::given))]
fn negation(
    alloc: Global,
    tokens: &[Token],
    room: usize,
    at: usize,
) -> Result<(Box<SpecTree>, usize), ReadError>
    requires at_place { at ≤ length tokens.now }
    ensures value { GivesBoxed (read.right_of tokens.now (read.inside tokens.now room) 0 at) result }
    ensures within { IfOk result (λ read. IsWithin (length tokens.now) at read.1) }
{
    if !is_symbol(tokens, at, Symbol::Tilde) {
        return compared(alloc, tokens, room, at);
    }
    let (inner, next) = operand(alloc, tokens, room, 0, at + 1)?;
    let made = at_place(alloc, tokens, at, SpecBody::Not(inner))?;
    Ok((made, next))
}

/// A comparison or what stands alone.
#[cycle(reading)]
#[tactic(auto, using(jh_ast::proofs::FormSteps::form_steps, crate::proofs::parser::Turns::turn_steps, crate::proofs::parser::Levels::level_steps), unfolding(crate::specs::parser::Reading::compared_of, jh_operators::specs::lookahead::Choices::and_then, jh_operators::specs::lookahead::Choices::choose, jh_operators::specs::lookahead::Choices::given))]
fn compared(
    alloc: Global,
    tokens: &[Token],
    room: usize,
    at: usize,
) -> Result<(Box<SpecTree>, usize), ReadError>
    requires at_place { at ≤ length tokens.now }
    ensures value { GivesBoxed (read.compared_of tokens.now (read.inside tokens.now room) at) result }
    ensures within { IfOk result (λ read. IsWithin (length tokens.now) at read.1) }
{
    if is_dvd(tokens, at) {
        return divides(alloc, tokens, room, at);
    }
    let (first, next) = left(alloc, tokens, room, 2, at)?;
    match operator(tokens, 4, next) {
        None => Ok((first, next)),
        Some(operator) => {
            let (second, next) = left(alloc, tokens, room, 2, next + 1)?;
            let both = binary(alloc, operator, first, second)?;
            Ok((both, next))
        }
    }
}

/// A number that divides.
#[cycle(reading)]
#[tactic(auto, using(jh_ast::proofs::FormSteps::form_steps, crate::proofs::parser::Turns::turn_steps, crate::proofs::parser::Levels::level_steps), unfolding(crate::specs::parser::Reading::divides_of, jh_operators::specs::lookahead::Choices::and_then, jh_operators::specs::lookahead::Choices::choose, jh_operators::specs::lookahead::Choices::given))]
fn divides(
    alloc: Global,
    tokens: &[Token],
    room: usize,
    at: usize,
) -> Result<(Box<SpecTree>, usize), ReadError>
    requires at_place { at + 2 ≤ length tokens.now }
    ensures value { GivesBoxed (read.divides_of tokens.now (read.inside tokens.now room) at) result }
    ensures within { IfOk result (λ read. IsWithin (length tokens.now) at read.1) }
{
    match number(tokens, at) {
        None => Err(ReadError::Refused(at)),
        Some(number) => {
            let (inner, next) = left(alloc, tokens, room, 2, at + 2)?;
            let made = at_place(alloc, tokens, at, SpecBody::Dvd(number, inner))?;
            Ok((made, next))
        }
    }
}

/// At each level operators that group to the left.
#[cycle(reading)]
#[tactic(auto, using(jh_ast::proofs::FormSteps::form_steps, crate::proofs::parser::Turns::turn_steps, crate::proofs::parser::Levels::level_steps), unfolding(crate::specs::parser::Reading::left_of, jh_operators::specs::lookahead::Choices::and_then, jh_operators::specs::lookahead::Choices::choose, jh_operators::specs::lookahead::Choices::given))]
fn left(
    alloc: Global,
    tokens: &[Token],
    room: usize,
    level: u8,
    at: usize,
) -> Result<(Box<SpecTree>, usize), ReadError>
    requires at_place { at ≤ length tokens.now }
    requires level { level ≤ 3 }
    ensures value { GivesBoxed (read.left_of tokens.now (read.inside tokens.now room) level at) result }
    ensures within { IfOk result (λ read. IsWithin (length tokens.now) at read.1) }
{
    if level == 0 {
        return prefix(alloc, tokens, room, at);
    }
    let (first, next) = left(alloc, tokens, room, level - 1, at)?;
    chain(alloc, tokens, room, level - 1, first, next)
}

/// Operators and operands after an operand.
#[cycle(reading)]
#[tactic(auto, using(jh_ast::proofs::FormSteps::form_steps, crate::proofs::parser::Turns::turn_steps, crate::proofs::parser::Levels::level_steps), unfolding(crate::specs::parser::Reading::chain_of, jh_operators::specs::lookahead::Choices::and_then, jh_operators::specs::lookahead::Choices::choose, jh_operators::specs::lookahead::Choices::given))]
fn chain(
    alloc: Global,
    tokens: &[Token],
    room: usize,
    level: u8,
    first: Box<SpecTree>,
    at: usize,
) -> Result<(Box<SpecTree>, usize), ReadError>
    requires at_place { at ≤ length tokens.now }
    requires level { level ≤ 3 }
    ensures value { GivesBoxed (read.chain_of tokens.now (read.inside tokens.now room) level (form_tree first.value) at) result }
    ensures within { IfOk result (λ read. (at ≤ read.1) × (read.1 ≤ length tokens.now)) }
{
    match operator(tokens, 2 + level, at) {
        None => Ok((first, at)),
        Some(operator) => {
            let (second, next) = left(alloc, tokens, room, level, at + 1)?;
            let both = binary(alloc, operator, first, second)?;
            if room == 0 {
                return Err(ReadError::Refused(next));
            }
            chain(alloc, tokens, room - 1, level, both, next)
        }
    }
}

/// An operand with a sign or a word before it.
#[cycle(reading)]
#[tactic(auto, using(jh_ast::proofs::FormSteps::form_steps, crate::proofs::parser::Turns::turn_steps, crate::proofs::parser::Levels::level_steps), unfolding(crate::specs::parser::Reading::prefix_of, jh_operators::specs::lookahead::Choices::and_then, jh_operators::specs::lookahead::Choices::choose, jh_operators::specs::lookahead::Choices::given))]
fn prefix(
    alloc: Global,
    tokens: &[Token],
    room: usize,
    at: usize,
) -> Result<(Box<SpecTree>, usize), ReadError>
    requires at_place { at ≤ length tokens.now }
    ensures value { GivesBoxed (read.prefix_of tokens.now (read.inside tokens.now room) at) result }
    ensures within { IfOk result (λ read. IsWithin (length tokens.now) at read.1) }
{
    if is_symbol(tokens, at, Symbol::Minus) {
        return signed(alloc, tokens, room, Sign::Minus, at);
    }
    if is_symbol(tokens, at, Symbol::Old) {
        return signed(alloc, tokens, room, Sign::Old, at);
    }
    if is_symbol(tokens, at, Symbol::Card) {
        return signed(alloc, tokens, room, Sign::Card, at);
    }
    if is_symbol(tokens, at, Symbol::Tree) {
        return forest(alloc, tokens, at);
    }
    if is_symbol(tokens, at, Symbol::RtranclPt) {
        return rtrancl(alloc, tokens, room, at);
    }
    postfix(alloc, tokens, room, at)
}

/// A sign or a word, and the operand behind it.
#[cycle(reading)]
#[tactic(auto, using(jh_ast::proofs::FormSteps::form_steps, crate::proofs::parser::Turns::turn_steps, crate::proofs::parser::Levels::level_steps), unfolding(crate::specs::parser::Reading::signed_of, jh_operators::specs::lookahead::Choices::and_then, jh_operators::specs::lookahead::Choices::choose, jh_operators::specs::lookahead::Choices::given))]
fn signed(
    alloc: Global,
    tokens: &[Token],
    room: usize,
    sign: Sign,
    at: usize,
) -> Result<(Box<SpecTree>, usize), ReadError>
    requires at_place { at < length tokens.now }
    ensures value { GivesBoxed (read.signed_of tokens.now (read.inside tokens.now room) (signed_by sign) at) result }
    ensures within { IfOk result (λ read. IsWithin (length tokens.now) at read.1) }
{
    if room == 0 {
        return Err(ReadError::Refused(at));
    }
    let (inner, next) = prefix(alloc, tokens, room - 1, at + 1)?;
    let made = signed_tree(alloc, tokens, at, sign, inner)?;
    Ok((made, next))
}

/// A path: the two names, the step, and the two ends.
#[cycle(reading)]
#[tactic(auto, using(jh_ast::proofs::FormSteps::form_steps, crate::proofs::parser::Turns::turn_steps, crate::proofs::parser::Levels::level_steps), unfolding(crate::specs::parser::Reading::rtrancl_of, jh_operators::specs::lookahead::Choices::and_then, jh_operators::specs::lookahead::Choices::choose, jh_operators::specs::lookahead::Choices::given))]
fn rtrancl(
    alloc: Global,
    tokens: &[Token],
    room: usize,
    at: usize,
) -> Result<(Box<SpecTree>, usize), ReadError>
    requires at_place { at < length tokens.now }
    ensures value { GivesBoxed (read.rtrancl_of tokens.now (read.inside tokens.now room) at) result }
    ensures within { IfOk result (λ read. IsWithin (length tokens.now) at read.1) }
{
    let (first, second) = pair(alloc, tokens, at)?;
    let (body, next) = operand(alloc, tokens, room, 3, at + 6)?;
    let next = behind(tokens, next, Symbol::RightParenthesis)?;
    let (from, next) = postfix(alloc, tokens, room, next)?;
    let (to, next) = postfix(alloc, tokens, room, next)?;
    let path = SpecBody::Rtrancl(first, second, body, from, to);
    let made = at_place(alloc, tokens, at, path)?;
    Ok((made, next))
}

/// An operand and reads of fields after it.
#[cycle(reading)]
#[tactic(auto, using(jh_ast::proofs::FormSteps::form_steps, crate::proofs::parser::Turns::turn_steps, crate::proofs::parser::Levels::level_steps), unfolding(crate::specs::parser::Reading::postfix_of, jh_operators::specs::lookahead::Choices::and_then, jh_operators::specs::lookahead::Choices::choose, jh_operators::specs::lookahead::Choices::given))]
pub(crate) fn postfix(
    alloc: Global,
    tokens: &[Token],
    room: usize,
    at: usize,
) -> Result<(Box<SpecTree>, usize), ReadError>
    requires at_place { at ≤ length tokens.now }
    ensures value { GivesBoxed (read.postfix_of tokens.now (read.inside tokens.now room) at) result }
    ensures within { IfOk result (λ read. IsWithin (length tokens.now) at read.1) }
{
    let (first, next) = atom(alloc, tokens, room, at)?;
    dots(alloc, tokens, tokens.len() + 1, first, next)
}

/// An operand without parts outside brackets.
#[cycle(reading)]
#[tactic(auto, using(jh_ast::proofs::FormSteps::form_steps, crate::proofs::parser::Turns::turn_steps, crate::proofs::parser::Levels::level_steps), unfolding(crate::specs::parser::Reading::atom_of, jh_operators::specs::lookahead::Choices::and_then, jh_operators::specs::lookahead::Choices::choose, jh_operators::specs::lookahead::Choices::given))]
fn atom(
    alloc: Global,
    tokens: &[Token],
    room: usize,
    at: usize,
) -> Result<(Box<SpecTree>, usize), ReadError>
    requires at_place { at ≤ length tokens.now }
    ensures value { GivesBoxed (read.atom_of tokens.now (read.inside tokens.now room) at) result }
    ensures within { IfOk result (λ read. IsWithin (length tokens.now) at read.1) }
{
    if is_symbol(tokens, at, Symbol::LeftParenthesis) {
        return bracket(alloc, tokens, room, at);
    }
    if is_symbol(tokens, at, Symbol::LeftBrace) {
        return set(alloc, tokens, room, at);
    }
    simple(alloc, tokens, at)
}

/// A formula in brackets.
#[cycle(reading)]
#[tactic(auto, using(jh_ast::proofs::FormSteps::form_steps, crate::proofs::parser::Turns::turn_steps, crate::proofs::parser::Levels::level_steps), unfolding(crate::specs::parser::Reading::bracket_of, jh_operators::specs::lookahead::Choices::and_then, jh_operators::specs::lookahead::Choices::choose, jh_operators::specs::lookahead::Choices::given))]
fn bracket(
    alloc: Global,
    tokens: &[Token],
    room: usize,
    at: usize,
) -> Result<(Box<SpecTree>, usize), ReadError>
    requires at_place { at < length tokens.now }
    ensures value { GivesBoxed (read.bracket_of tokens.now (read.inside tokens.now room) at) result }
    ensures within { IfOk result (λ read. IsWithin (length tokens.now) at read.1) }
{
    let (inner, next) = operand(alloc, tokens, room, 3, at + 1)?;
    let next = behind(tokens, next, Symbol::RightParenthesis)?;
    Ok((moved(tokens, at, inner), next))
}

/// A set in braces.
#[cycle(reading)]
#[tactic(auto, using(jh_ast::proofs::FormSteps::form_steps, crate::proofs::parser::Turns::turn_steps, crate::proofs::parser::Levels::level_steps), unfolding(crate::specs::parser::Reading::set_of, jh_operators::specs::lookahead::Choices::and_then, jh_operators::specs::lookahead::Choices::choose, jh_operators::specs::lookahead::Choices::given))]
fn set(
    alloc: Global,
    tokens: &[Token],
    room: usize,
    at: usize,
) -> Result<(Box<SpecTree>, usize), ReadError>
    requires at_place { at < length tokens.now }
    ensures value { GivesBoxed (read.set_of tokens.now (read.inside tokens.now room) at) result }
    ensures within { IfOk result (λ read. IsWithin (length tokens.now) at read.1) }
{
    if is_symbol(tokens, at + 1, Symbol::RightBrace) {
        let members = Row::of(Vec::new(alloc));
        let made = at_place(alloc, tokens, at, SpecBody::Braces(members))?;
        return Ok((made, at + 2));
    }
    if is_compr(tokens, at) {
        return compr(alloc, tokens, room, at);
    }
    braces(alloc, tokens, room, at)
}

/// The set of the objects that a formula is true of.
#[cycle(reading)]
#[tactic(auto, using(jh_ast::proofs::FormSteps::form_steps, crate::proofs::parser::Turns::turn_steps, crate::proofs::parser::Levels::level_steps), unfolding(crate::specs::parser::Reading::compr_of, jh_operators::specs::lookahead::Choices::and_then, jh_operators::specs::lookahead::Choices::choose, jh_operators::specs::lookahead::Choices::given))]
fn compr(
    alloc: Global,
    tokens: &[Token],
    room: usize,
    at: usize,
) -> Result<(Box<SpecTree>, usize), ReadError>
    requires at_place { at + 3 ≤ length tokens.now }
    ensures value { GivesBoxed (read.compr_of tokens.now (read.inside tokens.now room) at) result }
    ensures within { IfOk result (λ read. IsWithin (length tokens.now) at read.1) }
{
    let name = word(alloc, tokens, at + 1)?;
    let (inner, next) = operand(alloc, tokens, room, 3, at + 3)?;
    let next = behind(tokens, next, Symbol::RightBrace)?;
    let made = at_place(alloc, tokens, at, SpecBody::Compr(name, inner))?;
    Ok((made, next))
}

/// A set of listed members.
#[cycle(reading)]
#[tactic(auto, using(jh_ast::proofs::FormSteps::form_steps, crate::proofs::parser::Turns::turn_steps, crate::proofs::parser::Levels::level_steps), unfolding(crate::specs::parser::Reading::braces_of, jh_operators::specs::lookahead::Choices::and_then, jh_operators::specs::lookahead::Choices::choose, jh_operators::specs::lookahead::Choices::given))]
fn braces(
    alloc: Global,
    tokens: &[Token],
    room: usize,
    at: usize,
) -> Result<(Box<SpecTree>, usize), ReadError>
    requires at_place { at < length tokens.now }
    ensures value { GivesBoxed (read.braces_of tokens.now (read.inside tokens.now room) at) result }
    ensures within { IfOk result (λ read. IsWithin (length tokens.now) at read.1) }
{
    let mut made = Vec::new(alloc);
    let next = members(alloc, tokens, room, &mut made, at + 1)?;
    let next = behind(tokens, next, Symbol::RightBrace)?;
    let members = Row::of(made);
    let made = at_place(alloc, tokens, at, SpecBody::Braces(members))?;
    Ok((made, next))
}

/// Adds a member to those that are there.
fn add_member(made: &mut Vec<SpecTree>, member: Box<SpecTree>) -> Result<(), NoMemory>
    ensures { IfOk result (λ _. made.new.items ≡ made.old.items ++ member.value ∷ []) }
{
    made.push(Box::into_inner(member))?;
    Ok(())
}

/// Members with commas between them, after those that are there.
#[cycle(reading)]
#[tactic(auto, using(jh_ast::proofs::FormSteps::form_steps, crate::proofs::parser::Turns::turn_steps, crate::proofs::parser::Levels::level_steps), unfolding(crate::specs::parser::Reading::members_of, jh_operators::specs::lookahead::Choices::and_then, jh_operators::specs::lookahead::Choices::choose, jh_operators::specs::lookahead::Choices::given))]
fn members(
    alloc: Global,
    tokens: &[Token],
    room: usize,
    made: &mut Vec<SpecTree>,
    at: usize,
) -> Result<usize, ReadError>
    requires at_place { at ≤ length tokens.now }
    ensures value { GivesForms (form_trees made.new.items) (and_then ((read.inside tokens.now room).members at) (λ r. Some (before made.old.items r.0, r.1))) result }
    ensures within { IfOk result (IsWithin (length tokens.now) at) }
{
    if room == 0 {
        return Err(ReadError::Refused(at));
    }
    let (member, next) = operand(alloc, tokens, room - 1, 3, at)?;
    add_member(made, member)?;
    if is_symbol(tokens, next, Symbol::Comma) {
        return members(alloc, tokens, room - 1, made, next + 1);
    }
    Ok(next)
}
