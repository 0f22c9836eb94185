ghost use Rattle.std.specs.Prelude.{◌≡◌, ◌<◌, ◌≤◌, length, IfOk, slice_index};
ghost use Rattle.jh_lex.specs.lexer.Texts.{SpecificationStep, QuoteStep};
ghost use Rattle.jh_lex.specs.lexer.Reports.{ReadsStep, ReadsText};

use crate::lexer::character::is_space;
use crate::lexer::cursor::Cursor;
use crate::lexer::ends::quote_at;
use crate::lexer::formula::{formula, lexeme};
use crate::lexer::{LexError, Mode, Token, TokenKind};
use std::alloc::Global;

/// Reads a formula with the quotes round it.
fn quoted(alloc: Global, at: Cursor, out: &mut Vec<Token>) -> Result<usize, LexError>
    requires { 0 < length at.rest.now }
    ensures some { IfOk result (λ n. 0 < n) }
    ensures within { IfOk result (λ n. n ≤ length at.entry.rest.now) }
    ensures reads { ReadsStep QuoteStep at.entry.place at.entry.rest.now out.old.items out.new.items result }
{
    let inside = at.skip(1);
    match quote_at(inside.rest) {
        None => Err(LexError::OpenQuote(at.place)),
        Some(n) => {
            out.push(Token {
                kind: TokenKind::QuoteOpen,
                place: at.place,
            })?;
            formula(alloc, inside.cut(n), out)?;
            out.push(Token {
                kind: TokenKind::QuoteClose,
                place: at.skip(n + 1).place,
            })?;
            Ok(n + 2)
        }
    }
}

/// Reads what stands at the front of a specification.
fn specification_step(alloc: Global, at: Cursor, out: &mut Vec<Token>) -> Result<usize, LexError>
    requires { 0 < length at.rest.now }
    ensures some { IfOk result (λ n. 0 < n) }
    ensures within { IfOk result (λ n. n ≤ length at.entry.rest.now) }
    ensures reads { ReadsStep SpecificationStep at.entry.place at.entry.rest.now out.old.items out.new.items result }
{
    let first = at.rest[0];
    if is_space(first) {
        return Ok(1);
    }
    if first == '"' {
        return quoted(alloc, at, out);
    }
    lexeme(alloc, Mode::Specification, at, out)
}

/// Reads the whole text of a specification.
pub(crate) fn specification(
    alloc: Global,
    text: Cursor,
    out: &mut Vec<Token>,
) -> Result<(), LexError>
    ensures { ReadsText SpecificationStep text.entry.place text.entry.rest.now out.old.items out.new.items result }
{
    let mut at = text;
    while !at.rest.is_empty() {
        let n = specification_step(alloc, at, out)?;
        at = at.skip(n);
    }
    Ok(())
}
