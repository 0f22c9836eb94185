ghost use Rattle.std.specs.Prelude.{◌<◌, ◌≤◌, length, IfOk};
ghost use Rattle.jh_lex.specs.lexer.Texts.{LexemeStep, FormulaStep};
ghost use Rattle.jh_lex.specs.lexer.Reports.{ReadsStep, ReadsText};

use crate::lexer::character::is_space;
use crate::lexer::cursor::Cursor;
use crate::lexer::kind::kind_of;
use crate::lexer::lexeme::lexeme_len;
use crate::lexer::{LexError, Mode, Token};
use std::alloc::Global;

/// Reads the longest token of the mode at the front, and says how many characters it takes.
pub(crate) fn lexeme(
    alloc: Global,
    mode: Mode,
    at: Cursor,
    out: &mut Vec<Token>,
) -> Result<usize, LexError>
    ensures some { IfOk result (λ n. 0 < n) }
    ensures within { IfOk result (λ n. n ≤ length at.entry.rest.now) }
    ensures reads { ReadsStep (LexemeStep mode) at.entry.place at.entry.rest.now out.old.items out.new.items result }
{
    let n = lexeme_len(mode, at.rest);
    if n == 0 {
        return Err(LexError::BadChar(at.place));
    }
    match kind_of(alloc, mode, &at.rest[..n])? {
        None => Err(LexError::TooWide(at.place)),
        Some(kind) => {
            out.push(Token {
                kind,
                place: at.place,
            })?;
            Ok(n)
        }
    }
}

/// Reads what stands at the front of a formula.
fn formula_step(alloc: Global, at: Cursor, out: &mut Vec<Token>) -> Result<usize, LexError>
    requires { 0 < length at.rest.now }
    ensures some { IfOk result (λ n. 0 < n) }
    ensures within { IfOk result (λ n. n ≤ length at.entry.rest.now) }
    ensures reads { ReadsStep FormulaStep at.entry.place at.entry.rest.now out.old.items out.new.items result }
{
    if is_space(at.rest[0]) {
        return Ok(1);
    }
    lexeme(alloc, Mode::Formula, at, out)
}

/// Reads the whole text of a formula.
pub(crate) fn formula(alloc: Global, text: Cursor, out: &mut Vec<Token>) -> Result<(), LexError>
    ensures { ReadsText FormulaStep text.entry.place text.entry.rest.now out.old.items out.new.items result }
{
    let mut at = text;
    while !at.rest.is_empty() {
        let n = formula_step(alloc, at, out)?;
        at = at.skip(n);
    }
    Ok(())
}
