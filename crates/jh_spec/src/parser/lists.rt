//! The lists that a specification holds, each up to the token that closes the specification. A list is read by a loop, so
//! that it may be of any length.
ghost use Rattle.std.specs.Prelude.{◌≡◌, ◌+◌, ◌≤◌, ◌<◌, length, IfOk, map, option_map};
ghost use Rattle.jh_operators.specs.lookahead.Answers.{Gives};
ghost use Rattle.jh_spec.specs.parser.PartReading as part;
ghost use Rattle.jh_spec.specs.parser.PartReads.{GivesClause, GivesContract, GivesItems, GivesLoop, GivesPromise, GivesStatements};

use crate::parser::SpecItem;
use crate::parser::clauses::{Listed, clause, words_after};
use crate::parser::held::{Numbered, spec_of};
use crate::parser::parts::{item, loop_item, statement};
use jh_ast::{Labelled, Spec, Stmt, Word};
use jh_lex::lexer::{Symbol, Token};
use jh_operators::lookahead::{ReadError, behind, is_spec_close, word};
use std::alloc::Global;

/// The items of a class in a specification whose contents begin at a place: the items, the place of the token that closes
/// the specification, and the number after the last formula. The formulas are numbered from `number` on.
pub fn items_part(
    alloc: Global,
    tokens: &[Token],
    number: u32,
    from: usize,
) -> Result<(Vec<SpecItem>, usize, u32), ReadError>
    requires { from ≤ length tokens.now }
    ensures value { GivesItems (part.items_at tokens.now number from) result }
    ensures within { IfOk result (λ read. (from ≤ read.1) × (read.1 < length tokens.now)) }
{
    let mut made = Vec::new(alloc);
    let mut at = from;
    let mut after = number;
    let mut turns = tokens.len();
    'each: while !is_spec_close(tokens, at) {
        if turns == 0 {
            return Err(ReadError::Refused(at));
        }
        let (one, next, number) = item(alloc, tokens, after, at)?;
        made.push(one)?;
        at = next;
        after = number;
        turns -= 1;
    }
    Ok((made, at, after))
}

/// The invariants of a loop, likewise.
pub fn loop_part(
    alloc: Global,
    tokens: &[Token],
    number: u32,
    from: usize,
) -> Result<(Vec<Labelled>, usize, u32), ReadError>
    requires { from ≤ length tokens.now }
    ensures value { GivesLoop (part.loop_at tokens.now number from) result }
    ensures within { IfOk result (λ read. (from ≤ read.1) × (read.1 < length tokens.now)) }
{
    let mut made = Vec::new(alloc);
    let mut at = from;
    let mut after = number;
    let mut turns = tokens.len();
    'each: while !is_spec_close(tokens, at) {
        if turns == 0 {
            return Err(ReadError::Refused(at));
        }
        let (one, next, number) = loop_item(alloc, tokens, after, at)?;
        made.push(one)?;
        at = next;
        after = number;
        turns -= 1;
    }
    Ok((made, at, after))
}

/// Statements of a specification, likewise.
pub fn statements_part(
    alloc: Global,
    tokens: &[Token],
    number: u32,
    from: usize,
) -> Result<(Vec<Stmt>, usize, u32), ReadError>
    requires { from ≤ length tokens.now }
    ensures value { GivesStatements (part.statements_at tokens.now number from) result }
    ensures within { IfOk result (λ read. (from ≤ read.1) × (read.1 < length tokens.now)) }
{
    let mut made = Vec::new(alloc);
    let mut at = from;
    let mut after = number;
    let mut turns = tokens.len();
    'each: while !is_spec_close(tokens, at) {
        if turns == 0 {
            return Err(ReadError::Refused(at));
        }
        let (one, next, number) = statement(alloc, tokens, after, at)?;
        made.push(one)?;
        at = next;
        after = number;
        turns -= 1;
    }
    Ok((made, at, after))
}

/// A contract as it is read: what is required, what is modified, what is ensured.
pub type Contract = (Option<Spec>, Vec<Word>, Option<Spec>);

/// What is ensured, as the last clause of a contract.
#[tactic(auto, unfolding(crate::specs::parser::PartReading::ensured_at, jh_operators::specs::lookahead::Choices::and_then, jh_operators::specs::lookahead::Choices::choose))]
fn ensured(
    alloc: Global,
    tokens: &[Token],
    number: u32,
    at: usize,
) -> Result<(Option<Numbered>, usize, u32), ReadError>
    requires { at ≤ length tokens.now }
    ensures value { GivesClause (part.ensured_at tokens.now number at) result }
    ensures within { IfOk result (λ read. (at ≤ read.1) × (read.1 < length tokens.now)) }
{
    let (post, next, number) = clause(alloc, tokens, Symbol::Ensures, number, at)?;
    if !is_spec_close(tokens, next) {
        return Err(ReadError::Refused(next));
    }
    Ok((post, next, number))
}

/// What a contract modifies and ensures, and the place of the token that closes the specification.
#[tactic(auto, unfolding(crate::specs::parser::PartReading::promised_at, jh_operators::specs::lookahead::Choices::and_then))]
fn promised(
    alloc: Global,
    tokens: &[Token],
    number: u32,
    at: usize,
) -> Result<((Vec<Word>, Option<Numbered>), usize, u32), ReadError>
    requires { at ≤ length tokens.now }
    ensures value { GivesPromise (part.promised_at tokens.now number at) result }
    ensures within { IfOk result (λ read. (at ≤ read.1) × (read.1 < length tokens.now)) }
{
    let (modifies, next) = words_after(alloc, tokens, Symbol::Modifies, Listed::Modified, at)?;
    let (post, next, number) = ensured(alloc, tokens, number, next)?;
    Ok(((modifies, post), next, number))
}

/// The contract of a method in a specification whose contents begin at a place, likewise.
#[tactic(auto, unfolding(crate::specs::parser::PartReading::contracted_at, jh_operators::specs::lookahead::Choices::and_then))]
pub fn contract_part(
    alloc: Global,
    tokens: &[Token],
    number: u32,
    from: usize,
) -> Result<(Contract, usize, u32), ReadError>
    requires { from ≤ length tokens.now }
    ensures value { GivesContract (part.contracted_at tokens.now number from) result }
    ensures within { IfOk result (λ read. (from ≤ read.1) × (read.1 < length tokens.now)) }
{
    let (pre, next, number) = clause(alloc, tokens, Symbol::Requires, number, from)?;
    let ((modifies, post), next, number) = promised(alloc, tokens, number, next)?;
    Ok(((spec_of(pre), modifies, spec_of(post)), next, number))
}

/// The class that `claimedby` names in a specification whose contents begin at a place, and the place of the token that
/// closes the specification.
#[tactic(auto, unfolding(crate::specs::parser::PartReading::claimed_at, jh_operators::specs::lookahead::Choices::and_then, jh_operators::specs::lookahead::Choices::choose))]
pub fn claimed_part(
    alloc: Global,
    tokens: &[Token],
    from: usize,
) -> Result<(Word, usize), ReadError>
    requires { from ≤ length tokens.now }
    ensures value { Gives (λ read. read) (part.claimed_at tokens.now from) result }
    ensures within { IfOk result (λ read. (from ≤ read.1) × (read.1 < length tokens.now)) }
{
    let next = behind(tokens, from, Symbol::ClaimedBy)?;
    let word = word(alloc, tokens, next)?;
    if !is_spec_close(tokens, next + 1) {
        return Err(ReadError::Refused(next + 1));
    }
    Ok((word, next + 1))
}
