//! The pieces of specifications: formulas in quotes, labels, clauses of contracts, lists of words.
ghost use Rattle.std.specs.Prelude.{◌≡◌, ◌+◌, ◌≤◌, ◌<◌, length, IfOk};
ghost use Rattle.jh_operators.specs.lookahead.Answers.{Gives, IsWithin};
ghost use Rattle.jh_spec.specs.parser.Reading as read;
ghost use Rattle.jh_spec.specs.parser.PartReading as part;
ghost use Rattle.jh_spec.specs.parser.Parts.{numbered};
ghost use Rattle.jh_spec.specs.parser.PartReads.{GivesSpec, GivesLabel, GivesClause, GivesWord, listed_at, numbered_part};
ghost use Rattle.jh_spec.specs.parser.Reads.{GivesBoxed};
ghost use Rattle.jh_ast.specs.Bare.{form_tree};

use crate::parser::formulas::open_operand;
use crate::parser::held::Numbered;
use jh_ast::{SpecTree, Word};
use jh_lex::lexer::{Symbol, Token};
use jh_name::NoMemory;
use jh_operators::lookahead::{
    ReadError, is_plain_word, is_quote_close, is_quote_open, is_symbol, name, place, word,
};
use std::alloc::Global;

/// A formula up to the quote after it.
#[tactic(auto, unfolding(crate::specs::parser::Reading::formula_at, jh_operators::specs::lookahead::Choices::and_then, jh_operators::specs::lookahead::Choices::choose))]
pub(crate) fn quoted_formula(
    alloc: Global,
    tokens: &[Token],
    at: usize,
) -> Result<(Box<SpecTree>, usize), ReadError>
    requires { at ≤ length tokens.now }
    ensures value { GivesBoxed (read.formula_at tokens.now at) result }
    ensures within { IfOk result (λ read. (at < read.1) × (read.1 < length tokens.now)) }
{
    let (tree, next) = open_operand(alloc, tokens, tokens.len(), 3, at)?;
    if !is_quote_close(tokens, next) {
        return Err(ReadError::Refused(next));
    }
    Ok((tree, next))
}

/// The number after this one.
pub(crate) fn next_number(number: u32) -> Result<u32, NoMemory>
    ensures { IfOk result (λ next. next ≡ number + 1) }
{
    match number.checked_add(1) {
        Some(next) => Ok(next),
        None => Err(NoMemory),
    }
}

/// A formula of the file at the place of a token.
pub(crate) fn numbered(tokens: &[Token], at: usize, number: u32, form: Box<SpecTree>) -> Numbered
    ensures { numbered_part result ≡ numbered tokens.now at number (form_tree form.value) }
{
    Numbered {
        place: place(tokens, at),
        number,
        form,
    }
}

/// A formula in quotes.
#[tactic(auto, unfolding(crate::specs::parser::PartReading::quoted_at, jh_operators::specs::lookahead::Choices::and_then, jh_operators::specs::lookahead::Choices::choose))]
pub(crate) fn quoted(
    alloc: Global,
    tokens: &[Token],
    number: u32,
    at: usize,
) -> Result<(Numbered, usize), ReadError>
    requires { at ≤ length tokens.now }
    ensures value { GivesSpec (part.quoted_at tokens.now number at) result }
    ensures within { IfOk result (λ read. IsWithin (length tokens.now) at read.1) }
{
    if !is_quote_open(tokens, at) {
        return Err(ReadError::Refused(at));
    }
    let (form, next) = quoted_formula(alloc, tokens, at + 1)?;
    Ok((numbered(tokens, at, number, form), next + 1))
}

/// A label, where a word and a colon stand.
#[tactic(auto, unfolding(crate::specs::parser::PartReading::label_at, jh_operators::specs::lookahead::Choices::and_then, jh_operators::specs::lookahead::Choices::choose))]
pub(crate) fn label(
    alloc: Global,
    tokens: &[Token],
    at: usize,
) -> Result<(Option<Word>, usize), ReadError>
    requires { at ≤ length tokens.now }
    ensures value { GivesLabel (part.label_at tokens.now at) result }
    ensures within { IfOk result (λ read. (at ≤ read.1) × (read.1 ≤ length tokens.now)) }
{
    if is_plain_word(tokens, at) && is_symbol(tokens, at + 1, Symbol::Colon) {
        let word = word(alloc, tokens, at)?;
        return Ok((Some(word), at + 2));
    }
    Ok((None, at))
}

/// The place after a semicolon, or the same where none stands there.
#[tactic(auto, unfolding(crate::specs::parser::PartReading::semicolon_at, jh_operators::specs::lookahead::Choices::choose))]
pub(crate) fn semicolon(tokens: &[Token], at: usize) -> usize
    requires { at ≤ length tokens.now }
    ensures value { result ≡ part.semicolon_at tokens.now at }
    ensures within { (at ≤ result) × (result ≤ length tokens.now) }
{
    if is_symbol(tokens, at, Symbol::Semicolon) {
        return at + 1;
    }
    at
}

/// A symbol and a formula in quotes, where the symbol stands.
#[tactic(auto, unfolding(crate::specs::parser::PartReading::clause_at, jh_operators::specs::lookahead::Choices::and_then, jh_operators::specs::lookahead::Choices::choose))]
pub(crate) fn clause(
    alloc: Global,
    tokens: &[Token],
    symbol: Symbol,
    number: u32,
    at: usize,
) -> Result<(Option<Numbered>, usize, u32), ReadError>
    requires { at ≤ length tokens.now }
    ensures value { GivesClause (part.clause_at tokens.now symbol number at) result }
    ensures within { IfOk result (λ read. (at ≤ read.1) × (read.1 ≤ length tokens.now)) }
{
    if !is_symbol(tokens, at, symbol) {
        return Ok((None, at, number));
    }
    let after = next_number(number)?;
    let (form, next) = quoted(alloc, tokens, number, at + 1)?;
    Ok((Some(form), next, after))
}

/// What `modifies` names at a place: a name, in quotes or without.
#[tactic(auto, unfolding(crate::specs::parser::PartReading::modifies_item_at, jh_operators::specs::lookahead::Choices::and_then, jh_operators::specs::lookahead::Choices::choose))]
fn modifies_item(alloc: Global, tokens: &[Token], at: usize) -> Result<(Word, usize), ReadError>
    requires { at ≤ length tokens.now }
    ensures value { GivesWord (part.modifies_item_at tokens.now at) result }
    ensures within { IfOk result (λ read. IsWithin (length tokens.now) at read.1) }
{
    if is_quote_open(tokens, at) {
        let name = name(alloc, tokens, at + 1)?;
        if !is_quote_close(tokens, at + 2) {
            return Err(ReadError::Refused(at + 2));
        }
        return Ok((name, at + 3));
    }
    let name = name(alloc, tokens, at)?;
    Ok((name, at + 1))
}

/// A list of words: which words it lists.
#[derive(Clone, Copy, PartialEq, Eq)]
pub(crate) enum Listed {
    /// What a method modifies.
    Modified,
    /// The facts from which a formula is to follow.
    Facts,
}

/// One word of a list.
#[tactic(auto, unfolding(jh_operators::specs::lookahead::Choices::and_then))]
fn listed_word(
    alloc: Global,
    tokens: &[Token],
    listed: Listed,
    at: usize,
) -> Result<(Word, usize), ReadError>
    requires { at ≤ length tokens.now }
    ensures value { GivesWord (listed_at tokens.now listed at) result }
    ensures within { IfOk result (λ read. IsWithin (length tokens.now) at read.1) }
{
    match listed {
        Listed::Modified => modifies_item(alloc, tokens, at),
        Listed::Facts => {
            let word = word(alloc, tokens, at)?;
            Ok((word, at + 1))
        }
    }
}

/// Words with commas between them.
#[tactic(auto, unfolding(crate::specs::parser::PartReading::separated_at, jh_operators::specs::lookahead::Choices::and_then, jh_operators::specs::lookahead::Choices::choose))]
fn separated(
    alloc: Global,
    tokens: &[Token],
    listed: Listed,
    from: usize,
) -> Result<(Vec<Word>, usize), ReadError>
    requires { from ≤ length tokens.now }
    ensures value { Gives (λ read. (read.0.items, read.1)) (part.separated_at tokens.now (listed_at tokens.now listed) (length tokens.now) from) result }
    ensures within { IfOk result (λ read. IsWithin (length tokens.now) from read.1) }
{
    let mut made = Vec::new(alloc);
    let mut at = from;
    let mut turns = tokens.len();
    'each: while turns > 0 {
        let (word, next) = listed_word(alloc, tokens, listed, at)?;
        made.push(word)?;
        if !is_symbol(tokens, next, Symbol::Comma) {
            return Ok((made, next));
        }
        at = next + 1;
        turns -= 1;
    }
    Err(ReadError::Refused(at))
}

/// The words after a symbol, and none where it doesn't stand there.
#[tactic(auto, unfolding(crate::specs::parser::PartReading::words_after, jh_operators::specs::lookahead::Choices::choose))]
pub(crate) fn words_after(
    alloc: Global,
    tokens: &[Token],
    symbol: Symbol,
    listed: Listed,
    at: usize,
) -> Result<(Vec<Word>, usize), ReadError>
    requires { at ≤ length tokens.now }
    ensures value { Gives (λ read. (read.0.items, read.1)) (part.words_after tokens.now symbol (listed_at tokens.now listed) at) result }
    ensures within { IfOk result (λ read. (at ≤ read.1) × (read.1 ≤ length tokens.now)) }
{
    if !is_symbol(tokens, at, symbol) {
        return Ok((Vec::new(alloc), at));
    }
    separated(alloc, tokens, listed, at + 1)
}
