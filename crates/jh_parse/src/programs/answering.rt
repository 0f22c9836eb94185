//! What is read as a program.
ghost use Rattle.std.specs.Prelude.{◌≡◌, ◌<◌, length};
ghost use Rattle.jh_spec.specs.nesting.Nesting.{AllShallow};
ghost use Rattle.jh_parse.specs.programs.Parsed.{ParsedProgram};

use crate::programs::classes::whole;
use jh_ast::Program;
use jh_lex::lexer::Token;
use jh_operators::lookahead::ReadError;
use jh_spec::nesting::too_deep;
use jh_spec::parser::{ParseError, start_near};
use std::alloc::Global;

/// The program among tokens that are not too deep.
fn shallow_program(alloc: Global, tokens: &[Token]) -> Result<Program, ParseError>
    requires tokens { 0 < length tokens.now }
    requires shallow { AllShallow tokens.now }
    ensures { ParsedProgram tokens.now result }
{
    match whole(alloc, tokens) {
        Ok(program) => Ok(program),
        Err(ReadError::Refused(near)) => Err(ParseError::Syntax(start_near(tokens, near))),
        Err(ReadError::Memory) => Err(ParseError::Memory),
    }
}

/// The program that the tokens of a source spell, all of them. There is at most one. Its formulas are numbered from 0 in the
/// order of the text.
///
/// # Errors
/// `TooDeep` names the first token whose nesting exceeds 64, and comes first. `Syntax` comes where the tokens spell no program;
/// it names the token at which reading stopped.
pub fn program(alloc: Global, tokens: &[Token]) -> Result<Program, ParseError>
    requires { 0 < length tokens.now }
    // What is answered is the one program that is spelled, unless a token is too deep.
    ensures parsed { ParsedProgram tokens.now result }
{
    match too_deep(alloc, tokens)? {
        Some(place) => Err(ParseError::TooDeep(place)),
        None => shallow_program(alloc, tokens),
    }
}
