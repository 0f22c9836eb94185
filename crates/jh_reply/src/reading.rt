//! From the bytes of a source to its formulas.
ghost use Rattle.std.specs.Prelude.{◌≡◌, ◌-◌, ◌<◌, ◌^◌, ℕ, List, length, IfErr, IfOk};
ghost use Rattle.jh_ast.specs.Bare.{program_tree};
ghost use Rattle.jh_ast.specs.Programs.{ProgramTree as SourceTree};
ghost use Rattle.jh_lex.specs.lexer.Lexes.{Lexes};
ghost use Rattle.jh_run.specs.jh_logic.source.Laws.{IsAccepted};
ghost use Rattle.jh_vars.specs.Reading.{IsAcyclic};
ghost use Rattle.jh_run.specs.jh_unfolding.unfolder.Holding.{IsCause};
ghost use Rattle.jh_reply.specs.Refusals.{Parses, Spells, IsTyped, IsWhy, IsLoopOf, refusal_of};

use crate::error::Refusal;
use jh_ast::Program as Source;
use jh_lex::lexer::{LexError, Token, places_rise, shape_of_tokens, tokens};
use jh_run::jh_logic::text::spelled_is_accepted;
use jh_run::jh_parse::programs::program;
use jh_run::jh_type::checker::{TypeError, Typed, check};
use jh_run::jh_unfolding::unfolder::{Unfolded, VarsError, unfold};
use jh_spec::parser::ParseError;
use std::alloc::Global;

/// The most bytes that a source or a heap text may have.
pub const SOURCE_LIMIT: u64 = 1_048_576;

/// The tokens of a source.
fn cut(alloc: Global, bytes: &[u8]) -> Result<Vec<Token>, Refusal>
    requires { length bytes.now < 2 ^ 32 - 1 }
    ensures cut { IfOk result (λ made. Lexes bytes.now made.items) }
    ensures why { IfErr result (IsWhy bytes.now) }
{
    match tokens(alloc, bytes) {
        Ok(tokens) => Ok(tokens),
        Err(LexError::NotUtf8(place)) => Err(Refusal::At(1, place)),
        Err(LexError::BadChar(place)) => Err(Refusal::At(2, place)),
        Err(LexError::OpenComment(place)) => Err(Refusal::At(3, place)),
        Err(LexError::OpenQuote(place)) => Err(Refusal::At(4, place)),
        Err(LexError::TooWide(place)) => Err(Refusal::At(5, place)),
        Err(LexError::Memory) => Err(Refusal::Memory),
    }
}

/// The syntax tree of a source.
fn parsed(alloc: Global, bytes: &[u8]) -> Result<Source, Refusal>
    requires { length bytes.now < 2 ^ 32 - 1 }
    ensures parsed { IfOk result (λ source. Parses bytes.now (program_tree source)) }
    ensures why { IfErr result (IsWhy bytes.now) }
{
    let tokens = cut(alloc, bytes)?;
    match program(alloc, tokens.as_slice()) {
        Ok(source) => Ok(source),
        Err(ParseError::Syntax(place)) => Err(Refusal::At(6, place)),
        Err(ParseError::TooDeep(place)) => Err(Refusal::At(7, place)),
        Err(ParseError::Memory) => Err(Refusal::Memory),
    }
}

/// Why a source that breaks a type rule isn't verified.
fn refusal_of(fault: TypeError) -> Refusal
    ensures { result ≡ refusal_of fault }
{
    match fault {
        TypeError::TypeFault { rule, place } => Refusal::Mistyped(rule, place),
        TypeError::Memory => Refusal::Memory,
    }
}

/// The syntax tree of a source, which breaks no type rule.
fn typed(alloc: Global, bytes: &[u8]) -> Result<Typed, Refusal>
    requires { length bytes.now < 2 ^ 32 - 1 }
    ensures parsed { IfOk result (λ source. Parses bytes.now (program_tree source)) }
    ensures typed { IfOk result (λ source. IsTyped (program_tree source)) }
    ensures why { IfErr result (IsWhy bytes.now) }
{
    let source = parsed(alloc, bytes)?;
    match check(alloc, source) {
        Ok(typed) => Ok(typed),
        Err(refused) => Err(refusal_of(refused.fault)),
    }
}

/// Why a source that isn't unfolded isn't verified.
fn loop_of(fault: VarsError) -> Refusal
    ensures { (tree : SourceTree) → IsCause tree fault → IsLoopOf tree result }
{
    match fault {
        VarsError::CyclicDef(name) => Refusal::Cyclic(name),
        VarsError::Memory => Refusal::Memory,
    }
}

/// A source without cyclic variables, with its formulas.
fn unfolded(alloc: Global, source: Typed) -> Result<Unfolded, Refusal>
    ensures same { IfOk result (λ made. made.program ≡ source) }
    ensures acyclic { IfOk result (λ made. IsAcyclic (program_tree source)) }
    ensures why { IfErr result (IsLoopOf (program_tree source)) }
{
    match unfold(alloc, source) {
        Ok(made) => Ok(made),
        Err(refused) => Err(loop_of(refused.fault)),
    }
}

/// The program that a source spells, with its formulas.
pub fn read(alloc: Global, bytes: &[u8]) -> Result<Unfolded, Refusal>
    requires { length bytes.now < 2 ^ 32 - 1 }
    ensures spelled { IfOk result (λ made. Spells bytes.now (program_tree made.program)) }
    ensures why { IfErr result (IsWhy bytes.now) }
{
    let source = typed(alloc, bytes)?;
    let made = unfolded(alloc, source)?;
    Ok(made)
}

/// What bytes spell is accepted.
pub fn spelled_source_is_accepted()
    ensures { (bytes : List ℕ) (tree : SourceTree) → Spells bytes tree → IsAccepted tree }
{
    shape_of_tokens();
    places_rise();
    spelled_is_accepted();
}
