//! Methods.
ghost use Rattle.std.specs.Prelude.{◌≡◌, ◌+◌, ◌≤◌, ◌<◌, length, IfOk};
ghost use Rattle.jh_operators.specs.lookahead.Answers.{Gives, IsWithin};
ghost use Rattle.jh_parse.specs.programs.MemberReading as read;
ghost use Rattle.jh_parse.specs.programs.MemberReads.{GivesMethod, GivesObligations, GivesParameters, GivesSignature};
ghost use Rattle.jh_parse.specs.programs.Separated as comma;
ghost use Rattle.jh_spec.specs.parser.PartReads.{GivesContract};
ghost use Rattle.jh_parse.specs.statements.Reading as stmts;

use crate::statements::{body, declared};
use jh_ast::{JType, Method, Param, Stmt, Word};
use jh_lex::lexer::{Symbol, Token};
use jh_name::Row;
use jh_operators::lookahead::{ReadError, behind, is_spec_open, is_symbol, place, word};
use jh_spec::parser::{Contract, contract_part};
use std::alloc::Global;

/// Parameters, with commas between them.
fn several(alloc: Global, tokens: &[Token], from: usize) -> Result<(Vec<Param>, usize), ReadError>
    requires { from ≤ length tokens.now }
    ensures value { GivesParameters (comma.separated_at tokens.now (stmts.declared_at tokens.now) (length tokens.now) from) result }
    ensures within { IfOk result (λ read. IsWithin (length tokens.now) from read.1) }
{
    let mut made = Vec::new(alloc);
    let mut at = from;
    let mut turns = tokens.len();
    'each: while turns > 0 {
        let (one, next) = declared(alloc, tokens, at)?;
        made.push(one)?;
        if !is_symbol(tokens, next, Symbol::Comma) {
            return Ok((made, next));
        }
        at = next + 1;
        turns -= 1;
    }
    Err(ReadError::Refused(at))
}

/// The parameters of a method, in their brackets.
#[tactic(auto, unfolding(crate::specs::programs::MemberReading::parameters_at, jh_operators::specs::lookahead::Choices::and_then, jh_operators::specs::lookahead::Choices::choose))]
fn parameters(alloc: Global, tokens: &[Token], at: usize) -> Result<(Vec<Param>, usize), ReadError>
    requires { at ≤ length tokens.now }
    ensures value { GivesParameters (read.parameters_at tokens.now at) result }
    ensures within { IfOk result (λ read. IsWithin (length tokens.now) at read.1) }
{
    let next = behind(tokens, at, Symbol::LeftParenthesis)?;
    if is_symbol(tokens, next, Symbol::RightParenthesis) {
        return Ok((Vec::new(alloc), at + 2));
    }
    let (made, next) = several(alloc, tokens, next)?;
    let next = behind(tokens, next, Symbol::RightParenthesis)?;
    Ok((made, next))
}

/// The name and the parameters of a method.
#[tactic(auto, unfolding(crate::specs::programs::MemberReading::signature_at, jh_operators::specs::lookahead::Choices::and_then))]
fn signature(
    alloc: Global,
    tokens: &[Token],
    at: usize,
) -> Result<((Word, Vec<Param>), usize), ReadError>
    requires { at ≤ length tokens.now }
    ensures value { GivesSignature (read.signature_at tokens.now at) result }
    ensures within { IfOk result (λ read. IsWithin (length tokens.now) at read.1) }
{
    let name = word(alloc, tokens, at)?;
    let (params, next) = parameters(alloc, tokens, at + 1)?;
    Ok(((name, params), next))
}

/// The contract of a method, where one stands.
#[tactic(auto, unfolding(crate::specs::programs::MemberReading::promised_at, jh_operators::specs::lookahead::Choices::and_then, jh_operators::specs::lookahead::Choices::choose))]
fn promised(
    alloc: Global,
    tokens: &[Token],
    number: u32,
    at: usize,
) -> Result<(Contract, usize, u32), ReadError>
    requires { at ≤ length tokens.now }
    ensures value { GivesContract (read.promised_at tokens.now number at) result }
    ensures within { IfOk result (λ read. (at ≤ read.1) × (read.1 ≤ length tokens.now)) }
{
    if !is_spec_open(tokens, at) {
        return Ok(((None, Vec::new(alloc), None), at, number));
    }
    let (contract, next, number) = contract_part(alloc, tokens, number, at + 1)?;
    Ok((contract, next + 1, number))
}

/// The contract of a method and its body, up to the closing brace.
#[tactic(auto, unfolding(crate::specs::programs::MemberReading::obligations_at, jh_operators::specs::lookahead::Choices::and_then))]
fn obligations(
    alloc: Global,
    tokens: &[Token],
    number: u32,
    at: usize,
) -> Result<((Contract, Vec<Stmt>), usize, u32), ReadError>
    requires { at ≤ length tokens.now }
    ensures value { GivesObligations (read.obligations_at tokens.now number at) result }
    ensures within { IfOk result (λ read. (at ≤ read.1) × (read.1 < length tokens.now)) }
{
    let (contract, next, number) = promised(alloc, tokens, number, at)?;
    let (body, next, number) = body(alloc, tokens, number, next)?;
    Ok(((contract, body), next, number))
}

/// A method whose name stands at a place, after its modifiers and its type.
#[tactic(auto, unfolding(crate::specs::programs::MemberReading::method_at, jh_ast::specs::Bare::method_part, jh_operators::specs::lookahead::Choices::and_then))]
pub(crate) fn method(
    alloc: Global,
    tokens: &[Token],
    public: bool,
    fixed: bool,
    answer: JType,
    number: u32,
    at: usize,
) -> Result<(Method, usize, u32), ReadError>
    requires { at ≤ length tokens.now }
    ensures value { GivesMethod (read.method_at tokens.now (record { is_public = public; fixed = fixed; jtype = answer }) number at) result }
    ensures within { IfOk result (λ read. IsWithin (length tokens.now) at read.1) }
{
    let ((name, params), next) = signature(alloc, tokens, at)?;
    let (((pre, modifies, post), body), next, number) = obligations(alloc, tokens, number, next)?;
    Ok((
        Method {
            name,
            public,
            fixed,
            result: answer,
            params: Row::of(params),
            pre,
            modifies: Row::of(modifies),
            post,
            body: Row::of(body),
            end: place(tokens, next),
        },
        next + 1,
        number,
    ))
}
