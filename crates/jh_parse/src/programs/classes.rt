//! Classes and programs.
ghost use Rattle.std.specs.Prelude.{◌≡◌, ◌+◌, ◌≤◌, ◌<◌, length, suc, [], IfOk, IfSome};
ghost use Rattle.jh_ast.specs.Bare.{program_tree};
ghost use Rattle.jh_operators.specs.lookahead.Answers.{Gives, IsWithin};
ghost use Rattle.jh_parse.specs.programs.MemberReading as read;
ghost use Rattle.jh_parse.specs.programs.MemberReads.{GivesClass, GivesClasses, GivesHead};

use crate::programs::draft::Draft;
use crate::programs::members::members;
use jh_ast::{Class, Program};
use jh_lex::lexer::{Symbol, Token};
use jh_name::Row;
use jh_operators::lookahead::{
    ReadError, allowed, behind, has, is_end, is_spec_open, is_symbol, word,
};
use jh_spec::parser::claimed_part;
use std::alloc::Global;

/// One of what may stand before `class`, of the modifiers `seen` so far: the place after it, or none where none stands.
#[tactic(auto, unfolding(crate::specs::programs::MemberReading::head_at, jh_operators::specs::lookahead::Choices::and_then, jh_operators::specs::lookahead::Choices::choose, jh_operators::specs::lookahead::Choices::given))]
fn head(
    alloc: Global,
    tokens: &[Token],
    seen: &mut Vec<Symbol>,
    at: usize,
) -> Result<Option<usize>, ReadError>
    requires { at ≤ length tokens.now }
    ensures value { GivesHead seen.new.items (read.head_at tokens.now seen.old.items at) result }
    ensures within { IfOk result (λ next. IfSome next (λ j. IsWithin (length tokens.now) at j)) }
{
    let modifiers = [Symbol::Public, Symbol::Final];
    if let Some(symbol) = allowed(tokens, &modifiers, at) {
        if has(seen, symbol) {
            return Err(ReadError::Refused(at));
        }
        seen.push(symbol)?;
        return Ok(Some(at + 1));
    }
    if !is_spec_open(tokens, at) {
        return Ok(None);
    }
    let (_class, next) = claimed_part(alloc, tokens, at + 1)?;
    Ok(Some(next + 1))
}

/// The place after what stands before `class`.
fn heads(alloc: Global, tokens: &[Token], from: usize) -> Result<usize, ReadError>
    requires { from ≤ length tokens.now }
    ensures value { Gives (λ next. next) (read.heads_at tokens.now (suc (length tokens.now)) [] from) result }
    ensures within { IfOk result (λ next. (from ≤ next) × (next ≤ length tokens.now)) }
{
    let mut seen = Vec::new(alloc);
    let mut at = from;
    let mut turns = tokens.len() + 1;
    'each: while turns > 0 {
        match head(alloc, tokens, &mut seen, at)? {
            None => return Ok(at),
            Some(next) => at = next,
        }
        turns -= 1;
    }
    Err(ReadError::Refused(at))
}

/// A class.
#[tactic(auto, unfolding(crate::specs::programs::MemberReading::class_at, jh_operators::specs::lookahead::Choices::and_then))]
fn class(
    alloc: Global,
    tokens: &[Token],
    number: u32,
    at: usize,
) -> Result<(Class, usize, u32), ReadError>
    requires { at ≤ length tokens.now }
    ensures value { GivesClass (read.class_at tokens.now number at) result }
    ensures within { IfOk result (λ read. IsWithin (length tokens.now) at read.1) }
{
    let next = heads(alloc, tokens, at)?;
    let next = behind(tokens, next, Symbol::Class)?;
    let name = word(alloc, tokens, next)?;
    let next = behind(tokens, next + 1, Symbol::LeftBrace)?;
    let mut draft = Draft::of(alloc, name);
    let (next, number) = members(alloc, tokens, &mut draft, number, next)?;
    Ok((draft.finished(), next + 1, number))
}

/// The classes of a source, up to the token of its end.
fn classes(alloc: Global, tokens: &[Token]) -> Result<(Vec<Class>, usize, u32), ReadError>
    ensures value { GivesClasses (read.classes_at tokens.now) result }
    ensures within { IfOk result (λ read. read.1 < length tokens.now) }
{
    let mut made = Vec::new(alloc);
    let mut at = 0;
    let mut after = 0;
    let mut turns = tokens.len();
    'each: while !is_end(tokens, at) {
        if turns == 0 {
            return Err(ReadError::Refused(at));
        }
        let (one, next, number) = class(alloc, tokens, after, at)?;
        made.push(one)?;
        at = next;
        after = number;
        turns -= 1;
    }
    Ok((made, at, after))
}

/// The program that all of the tokens are.
#[tactic(auto, unfolding(crate::specs::programs::MemberReading::program_at, jh_ast::specs::Bare::program_tree, jh_operators::specs::lookahead::Choices::and_then, jh_operators::specs::lookahead::Choices::choose))]
pub(crate) fn whole(alloc: Global, tokens: &[Token]) -> Result<Program, ReadError>
    ensures { Gives program_tree (read.program_at tokens.now) result }
{
    let (made, next, _number) = classes(alloc, tokens)?;
    if tokens.len() != next + 1 {
        return Err(ReadError::Refused(next));
    }
    Ok(Program {
        classes: Row::of(made),
    })
}
