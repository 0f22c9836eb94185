ghost use Rattle.std.specs.Prelude.{◌≡◌, ◌+◌, ◌<◌, ◌≤◌, length, IfOk, slice_index};
ghost use Rattle.jh_lex.specs.lexer.Texts.{CodeStep, SlashStep, CommentStep};
ghost use Rattle.jh_lex.specs.lexer.Reports.{ReadsStep, ReadsText};

use crate::lexer::character::is_space;
use crate::lexer::cursor::Cursor;
use crate::lexer::ends::{close_at, line_len};
use crate::lexer::formula::lexeme;
use crate::lexer::specification::specification;
use crate::lexer::{LexError, Mode, Token, TokenKind};
use std::alloc::Global;

/// Reads a comment, whose end is `n` characters from its front and has this width.
fn comment(
    alloc: Global,
    n: usize,
    width: usize,
    at: Cursor,
    out: &mut Vec<Token>,
) -> Result<usize, LexError>
    requires begins { 2 ≤ n }
    requires ends { n + width ≤ length at.rest.now }
    requires colon { slice_index at.rest.now 2 ≡ 58 → 3 ≤ n }
    ensures some { IfOk result (λ m. 0 < m) }
    ensures within { IfOk result (λ m. m ≤ length at.entry.rest.now) }
    ensures reads { ReadsStep (CommentStep n width) at.entry.place at.entry.rest.now out.old.items out.new.items result }
{
    if at.rest.len() <= 2 || at.rest[2] != ':' {
        return Ok(n + width);
    }
    out.push(Token {
        kind: TokenKind::SpecOpen,
        place: at.place,
    })?;
    specification(alloc, at.skip(3).cut(n - 3), out)?;
    out.push(Token {
        kind: TokenKind::SpecClose,
        place: at.skip(n).place,
    })?;
    Ok(n + width)
}

/// Reads what a slash begins: a comment, or a specification.
fn slash(alloc: Global, at: Cursor, out: &mut Vec<Token>) -> Result<usize, LexError>
    requires some { 0 < length at.rest.now }
    requires slash { slice_index at.rest.now 0 ≡ 47 }
    ensures some { IfOk result (λ n. 0 < n) }
    ensures within { IfOk result (λ n. n ≤ length at.entry.rest.now) }
    ensures reads { ReadsStep SlashStep at.entry.place at.entry.rest.now out.old.items out.new.items result }
{
    if at.rest.len() < 2 {
        return Err(LexError::BadChar(at.place));
    }
    let second = at.rest[1];
    if second == '*' {
        match close_at(&at.rest[2..]) {
            None => Err(LexError::OpenComment(at.place)),
            Some(n) => comment(alloc, n + 2, 2, at, out),
        }
    } else if second == '/' {
        comment(alloc, line_len(at.rest), 0, at, out)
    } else {
        Err(LexError::BadChar(at.place))
    }
}

/// Reads what stands at the front of code.
fn code_step(alloc: Global, at: Cursor, out: &mut Vec<Token>) -> Result<usize, LexError>
    requires { 0 < length at.rest.now }
    ensures some { IfOk result (λ n. 0 < n) }
    ensures within { IfOk result (λ n. n ≤ length at.entry.rest.now) }
    ensures reads { ReadsStep CodeStep at.entry.place at.entry.rest.now out.old.items out.new.items result }
{
    let first = at.rest[0];
    if is_space(first) {
        return Ok(1);
    }
    if first == '/' {
        return slash(alloc, at, out);
    }
    lexeme(alloc, Mode::Code, at, out)
}

/// Reads the whole text of a source.
pub(crate) fn code(alloc: Global, text: Cursor, out: &mut Vec<Token>) -> Result<(), LexError>
    ensures { ReadsText CodeStep text.entry.place text.entry.rest.now out.old.items out.new.items result }
{
    let mut at = text;
    while !at.rest.is_empty() {
        let n = code_step(alloc, at, out)?;
        at = at.skip(n);
    }
    Ok(())
}
