//! Calls over sources.

ghost use Rattle.std.specs.Prelude.{IfOk};
ghost use Rattle.jh_boxed_commands.specs.jh_command_statements.checks.Told.{AreFormulas};
ghost use Rattle.jh_ast.specs.Bare.{program_tree};
ghost use Rattle.jh_boxed_commands.specs.jh_logic.source.Laws.{IsAccepted};
ghost use Rattle.jh_vars.specs.Reading.{IsAcyclic};
ghost use Rattle.jahob_calls.specs.Lexed.{IsLexed};

use crate::Called;
use jh_boxed_calls::jh_effects::written_state::written;
use jh_boxed_calls::jh_unfolding::unfolder::{Parts, Unfolded, unfold};
use jh_boxed_calls::state_lists::{modified_names, written_names};
use jh_boxed_commands::jh_logic::text::spelled_is_accepted;
use jh_boxed_commands::methods::{method_name, of_method};
use jh_lex::lexer::{LexError, Token, TokenKind, places_rise, shape_of_tokens, tokens};
use jh_name::{MethodId, NoMemory};
use jh_parse::programs::program;
use jh_spec::parser::{formula, spec};
use jh_type::checker::{Typed, check};
use jh_vars::state_names::state_list;
use std::alloc::Global;

/// A source with one method, whose contract is its one specification.
const SOURCE: &str =
    "class A { static int n; static void m() /*: modifies n ensures \"n = 1\" */ { n = 1; } }";

/// The method of the source.
const METHOD: MethodId = MethodId {
    class: 0,
    method: 0,
};

/// The tokens of the source.
fn source_tokens(alloc: Global) -> Result<Vec<Token>, LexError>
    ensures { IfOk result (λ made. IsLexed made.items) }
{
    tokens(alloc, SOURCE.as_bytes())
}

/// Whether a specification is read from the first token behind its beginning.
fn reads_spec(alloc: Global, tokens: &[Token]) -> bool {
    match tokens
        .iter()
        .position(|token| matches!(token.kind, TokenKind::SpecOpen))
    {
        Some(at) if at + 1 < tokens.len() => spec(alloc, tokens, at + 1).is_ok(),
        _ => false,
    }
}

/// Whether a formula is read from the first token behind its quote.
fn reads_formula(alloc: Global, tokens: &[Token]) -> bool {
    match tokens
        .iter()
        .position(|token| matches!(token.kind, TokenKind::QuoteOpen))
    {
        Some(at) if at + 1 < tokens.len() => formula(alloc, tokens, at + 1).is_ok(),
        _ => false,
    }
}

/// Whether the state is named that the method may write.
fn names_written(alloc: Global, typed: &Typed) -> Result<(), NoMemory> {
    let states = state_list(alloc, typed.program())?;
    let places = written(alloc, typed.program())?;
    let _names = written_names(alloc, states.as_slice(), &places, 0, "m")?;
    let _names = modified_names(alloc, states.as_slice(), &places, 0, "m")?;
    Ok(())
}

/// Whether the command of a method is made, where there is such a method.
fn makes_command(alloc: Global, parts: &mut Parts, id: MethodId) -> bool
    requires accepted { IsAccepted (program_tree parts.old.typed) }
    requires acyclic { IsAcyclic (program_tree parts.old.typed) }
    requires formulas { AreFormulas (program_tree parts.old.typed) parts.old.table parts.old.formulas.items }
{
    let formulas = parts.formulas.as_slice();
    match method_name(parts.typed.program(), id) {
        None => false,
        Some(_) => of_method(alloc, &parts.typed, &mut parts.table, formulas, id).is_ok(),
    }
}

/// Whether the command of the method is made, over the table of the formulas.
fn makes_from(alloc: Global, unfolded: Unfolded) -> Result<bool, NoMemory>
    requires accepted { IsAccepted (program_tree unfolded.program) }
    requires acyclic { IsAcyclic (program_tree unfolded.program) }
{
    let mut parts = unfolded.into_parts(alloc)?;
    Ok(makes_command(alloc, &mut parts, METHOD))
}

/// Whether the command of the method of a program is made.
fn answers_of_method(alloc: Global, typed: Typed) -> bool
    requires { IsAccepted (program_tree typed) }
{
    match unfold(alloc, typed) {
        Ok(unfolded) => makes_from(alloc, unfolded).unwrap_or(false),
        Err(_) => false,
    }
}

/// Makes the calls over a source that breaks no type rule.
fn typed_called(alloc: Global, typed: Typed) -> [Called; 2]
    requires { IsAccepted (program_tree typed) }
{
    [
        Called::of(
            "written_names, modified_names",
            names_written(alloc, &typed).is_ok(),
        ),
        Called::of("of_method", answers_of_method(alloc, typed)),
    ]
}

/// Makes the calls over the source that tokens spell.
fn tokens_called(alloc: Global, tokens: &[Token]) -> [Called; 2]
    requires { IsLexed tokens.now }
{
    if tokens.is_empty() {
        return [Called::of("tokens", false); 2];
    }
    shape_of_tokens();
    places_rise();
    spelled_is_accepted();
    match program(alloc, tokens) {
        Err(_) => [Called::of("program", false); 2],
        Ok(program) => match check(alloc, program) {
            Ok(typed) => typed_called(alloc, typed),
            Err(_) => [Called::of("check", false); 2],
        },
    }
}

/// Makes them.
pub fn all_called(alloc: Global) -> [Called; 4] {
    match source_tokens(alloc) {
        Err(_) => [Called::of("tokens", false); 4],
        Ok(tokens) => {
            let [names, of_method] = tokens_called(alloc, tokens.as_slice());
            [
                Called::of("spec", reads_spec(alloc, tokens.as_slice())),
                Called::of("formula", reads_formula(alloc, tokens.as_slice())),
                names,
                of_method,
            ]
        }
    }
}
