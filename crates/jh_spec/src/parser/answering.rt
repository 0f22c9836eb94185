//! What is read at a place: one specification, or one formula.
ghost use Rattle.std.specs.Prelude.{◌≡◌, ◌+◌, ◌≤◌, ◌<◌, length, IfOk, ℕ, List};
ghost use Rattle.jh_ast.specs.Forms.{FormTree};
ghost use Rattle.jh_lex.specs.declared.lexer.token.Token.{Token};
ghost use Rattle.jh_spec.specs.nesting.Nesting.{AllShallow};
ghost use Rattle.jh_spec.specs.parser.Formulas.{Spelled};
ghost use Rattle.jh_spec.specs.parser.Parts.{Part, PartTree};
ghost use Rattle.jh_spec.specs.parser.PartReading as part;
ghost use Rattle.jh_spec.specs.parser.PartReads.{GivesPart};
ghost use Rattle.jh_spec.specs.parser.Parsed.{IsStart};
ghost use Rattle.jh_spec.specs.parser.Answered.{ParsedForm, ParsedPart};
ghost use Rattle.jh_spec.specs.parser.Reading as read;

use crate::nesting::too_deep;
use crate::parser::clauses::quoted_formula;
use crate::parser::lists::{claimed_part, contract_part, items_part, loop_part, statements_part};
use crate::parser::{ParseError, SpecPart};
use jh_ast::SpecTree;
use jh_lex::lexer::{Symbol, Token};
use jh_name::{Place, Row};
use jh_operators::lookahead::{ReadError, is_name, is_quote_open, is_symbol, place};
use std::alloc::Global;

/// Whether a contract begins at a place.
fn begins_contract(tokens: &[Token], at: usize) -> bool
    ensures { result ≡ part.begins_contract_at tokens.now at }
{
    is_symbol(tokens, at, Symbol::Requires)
        || is_symbol(tokens, at, Symbol::Modifies)
        || is_symbol(tokens, at, Symbol::Ensures)
}

/// Whether `assert` or `note` stands at a place.
fn is_said(tokens: &[Token], at: usize) -> bool
    ensures { result ≡ part.is_said_at tokens.now at }
{
    is_symbol(tokens, at, Symbol::Assert) || is_symbol(tokens, at, Symbol::Note)
}

/// Whether what a ghost assignment assigns to begins at a place.
fn begins_target(tokens: &[Token], at: usize) -> bool
    ensures { result ≡ part.begins_target_at tokens.now at }
{
    is_name(tokens, at) || is_quote_open(tokens, at)
}

/// Whether a statement of a specification begins at a place.
fn begins_statement(tokens: &[Token], at: usize) -> bool
    ensures { result ≡ part.begins_statement_at tokens.now at }
{
    is_said(tokens, at) || begins_target(tokens, at)
}

/// The contract as a part.
#[tactic(auto, unfolding(jh_operators::specs::lookahead::Choices::and_then))]
fn contract(alloc: Global, tokens: &[Token], at: usize) -> Result<(SpecPart, usize), ReadError>
    requires { at ≤ length tokens.now }
    ensures { GivesPart (part.contract_of_at tokens.now at) result }
{
    let ((pre, modifies, post), next, _number) = contract_part(alloc, tokens, 0, at)?;
    let modifies = Row::of(modifies);
    Ok((
        SpecPart::Contract {
            pre,
            modifies,
            post,
        },
        next,
    ))
}

/// The contents of a specification.
#[tactic(auto, unfolding(crate::specs::parser::PartReading::part_at, jh_operators::specs::lookahead::Choices::and_then, jh_operators::specs::lookahead::Choices::choose))]
fn part(alloc: Global, tokens: &[Token], at: usize) -> Result<(SpecPart, usize), ReadError>
    requires { at ≤ length tokens.now }
    ensures { GivesPart (part.part_at tokens.now at) result }
{
    if is_symbol(tokens, at, Symbol::ClaimedBy) {
        let (word, next) = claimed_part(alloc, tokens, at)?;
        return Ok((SpecPart::Claimed(word), next));
    }
    if begins_contract(tokens, at) {
        return contract(alloc, tokens, at);
    }
    if is_symbol(tokens, at, Symbol::Inv) {
        let (made, next, _number) = loop_part(alloc, tokens, 0, at)?;
        return Ok((SpecPart::Loop(Row::of(made)), next));
    }
    if begins_statement(tokens, at) {
        let (made, next, _number) = statements_part(alloc, tokens, 0, at)?;
        return Ok((SpecPart::Statements(Row::of(made)), next));
    }
    let (made, next, _number) = items_part(alloc, tokens, 0, at)?;
    Ok((SpecPart::Items(Row::of(made)), next))
}

/// The place of a token, that of the first one where there are not so many.
pub fn start_near(tokens: &[Token], at: usize) -> Place
    requires { 0 < length tokens.now }
    ensures { IsStart tokens.now result }
{
    if at < tokens.len() {
        return place(tokens, at);
    }
    place(tokens, 0)
}

/// The contents of a specification among tokens that are not too deep.
fn shallow_part(alloc: Global, tokens: &[Token], at: usize) -> Result<(SpecPart, usize), ParseError>
    requires at { at < length tokens.now }
    requires shallow { AllShallow tokens.now }
    ensures { ParsedPart tokens.now at result }
{
    match part(alloc, tokens, at) {
        Ok((part, next)) => Ok((part, next)),
        Err(ReadError::Refused(near)) => Err(ParseError::Syntax(start_near(tokens, near))),
        Err(ReadError::Memory) => Err(ParseError::Memory),
    }
}

/// A formula among tokens that are not too deep.
fn shallow_formula(
    alloc: Global,
    tokens: &[Token],
    at: usize,
) -> Result<(SpecTree, usize), ParseError>
    requires at { at < length tokens.now }
    requires shallow { AllShallow tokens.now }
    ensures { ParsedForm tokens.now at result }
{
    match quoted_formula(alloc, tokens, at) {
        Ok((tree, next)) => Ok((Box::into_inner(tree), next)),
        Err(ReadError::Refused(near)) => Err(ParseError::Syntax(start_near(tokens, near))),
        Err(ReadError::Memory) => Err(ParseError::Memory),
    }
}

/// The contents of one specification, which begin at a place of the tokens, and the place of the token that closes it.
/// The formulas of the part are numbered from 0.
///
/// # Errors
/// `TooDeep` names the first token of all whose nesting exceeds 64, and comes first. `Syntax` comes where no part begins at
/// the place; it names the token at which reading stopped.
pub fn spec(alloc: Global, tokens: &[Token], at: usize) -> Result<(SpecPart, usize), ParseError>
    requires { at < length tokens.now }
    // What is answered is the one part that begins there, unless a token is too deep.
    ensures parsed { ParsedPart tokens.now at result }
{
    match too_deep(alloc, tokens)? {
        Some(place) => Err(ParseError::TooDeep(place)),
        None => shallow_part(alloc, tokens, at),
    }
}

/// The formula that begins at a place of the tokens, and the place of the quote that closes it.
///
/// # Errors
/// `TooDeep` names the first token of all whose nesting exceeds 64, and comes first. `Syntax` comes where no formula and
/// its closing quote begin at the place; it names the token at which reading stopped.
pub fn formula(alloc: Global, tokens: &[Token], at: usize) -> Result<(SpecTree, usize), ParseError>
    requires { at < length tokens.now }
    // What is answered is the one formula that begins there, unless a token is too deep.
    ensures parsed { ParsedForm tokens.now at result }
{
    match too_deep(alloc, tokens)? {
        Some(place) => Err(ParseError::TooDeep(place)),
        None => shallow_formula(alloc, tokens, at),
    }
}

/// At most one formula begins at a place.
pub fn at_most_one_formula()
    ensures { (ts : List Token) (i j k : ℕ) (t u : FormTree) → Spelled ts i t j → Spelled ts i u k → (t ≡ u) × (j ≡ k) }
{}

/// At most one part of a specification begins at a place.
pub fn at_most_one_part()
    ensures { (ts : List Token) (i j k : ℕ) (p q : PartTree) → Part ts i p j → Part ts i q k → (p ≡ q) × (j ≡ k) }
{}
