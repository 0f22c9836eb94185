ghost use Rattle.std.specs.Prelude.{◌≡◌, ◌+◌, ◌≤◌, ◌<◌, length, IfOk, IfSome, IsTrue};
ghost use Rattle.jh_operators.specs.lookahead.Standing as token;
ghost use Rattle.jh_operators.specs.lookahead.Answers.{Gives};

use crate::lookahead::error::ReadError;
use jh_ast::Word;
use jh_lex::lexer::{Symbol, Token, TokenKind};
use jh_name::Place;
use std::alloc::Global;

/// The number of the kind of token that stands at a place, and 83 where there is none.
fn kind_number(tokens: &[Token], at: usize) -> u8
    ensures value { result ≡ token.kind_at tokens.now at }
    ensures within { result < 83 → at < length tokens.now }
{
    match tokens.get(at) {
        Some(token) => token.kind.number(),
        None => 83,
    }
}

/// Whether a symbol stands at a place.
pub fn is_symbol(tokens: &[Token], at: usize, symbol: Symbol) -> bool
    ensures value { result ≡ token.is_at tokens.now at symbol }
    ensures within { IsTrue result → at < length tokens.now }
{
    kind_number(tokens, at) == symbol.number()
}

/// Whether a plain word stands at a place.
pub fn is_plain_word(tokens: &[Token], at: usize) -> bool
    ensures value { result ≡ token.is_plain_word_at tokens.now at }
    ensures within { IsTrue result → at < length tokens.now }
{
    kind_number(tokens, at) == 75
}

/// Whether a word stands at a place, plain or qualified.
pub fn is_name(tokens: &[Token], at: usize) -> bool
    ensures value { result ≡ token.is_name_at tokens.now at }
    ensures within { IsTrue result → at < length tokens.now }
{
    let kind = kind_number(tokens, at);
    kind == 75 || kind == 76
}

/// Whether a number stands at a place.
pub fn is_number(tokens: &[Token], at: usize) -> bool
    ensures value { result ≡ token.is_number_at tokens.now at }
    ensures within { IsTrue result → at < length tokens.now }
{
    kind_number(tokens, at) == 77
}

/// Whether a specification opens at a place.
pub fn is_spec_open(tokens: &[Token], at: usize) -> bool
    ensures value { result ≡ token.is_spec_open_at tokens.now at }
    ensures within { IsTrue result → at < length tokens.now }
{
    kind_number(tokens, at) == 78
}

/// Whether a specification closes at a place.
pub fn is_spec_close(tokens: &[Token], at: usize) -> bool
    ensures value { result ≡ token.is_spec_close_at tokens.now at }
    ensures within { IsTrue result → at < length tokens.now }
{
    kind_number(tokens, at) == 79
}

/// Whether the quote before a formula stands at a place.
pub fn is_quote_open(tokens: &[Token], at: usize) -> bool
    ensures value { result ≡ token.is_quote_open_at tokens.now at }
    ensures within { IsTrue result → at < length tokens.now }
{
    kind_number(tokens, at) == 80
}

/// Whether the quote after a formula stands at a place.
pub fn is_quote_close(tokens: &[Token], at: usize) -> bool
    ensures value { result ≡ token.is_quote_close_at tokens.now at }
    ensures within { IsTrue result → at < length tokens.now }
{
    kind_number(tokens, at) == 81
}

/// Whether the end of the source stands at a place.
pub fn is_end(tokens: &[Token], at: usize) -> bool
    ensures value { result ≡ token.is_end_at tokens.now at }
    ensures within { IsTrue result → at < length tokens.now }
{
    kind_number(tokens, at) == 82
}

fn is_word_kind(kind: &TokenKind, text: &str) -> bool
    ensures { result ≡ token.is_word_kind kind.now text.now }
{
    match kind {
        TokenKind::Word(name) => name.text() == text,
        _ => false,
    }
}

/// Whether a plain word of that text stands at a place.
pub fn is_word(tokens: &[Token], at: usize, text: &str) -> bool
    ensures value { result ≡ token.is_word_at tokens.now at text.now }
    ensures within { IsTrue result → at < length tokens.now }
{
    match tokens.get(at) {
        Some(token) => is_word_kind(&token.kind, text),
        None => false,
    }
}

/// Where the token at a place begins in the source; line 0 and column 0 where there is none.
pub fn place(tokens: &[Token], at: usize) -> Place
    ensures { result ≡ token.place_at tokens.now at }
{
    match tokens.get(at) {
        Some(token) => token.place,
        None => Place { line: 0, column: 0 },
    }
}

/// The place after a symbol that has to stand there.
#[tactic(auto, unfolding(crate::specs::lookahead::Standing::behind, crate::specs::lookahead::Choices::choose))]
pub fn behind(tokens: &[Token], at: usize, symbol: Symbol) -> Result<usize, ReadError>
    ensures value { Gives (λ next. next) (token.behind tokens.now at symbol) result }
    ensures within { IfOk result (λ next. (next ≡ at + 1) × (next ≤ length tokens.now)) }
{
    if is_symbol(tokens, at, symbol) {
        Ok(at + 1)
    } else {
        Err(ReadError::Refused(at))
    }
}

fn word_of(alloc: Global, kind: &TokenKind, place: Place, at: usize) -> Result<Word, ReadError>
    ensures { Gives (λ word. word) (token.word_of kind.now place) result }
{
    match kind {
        TokenKind::Word(name) => {
            let text = name.copy(alloc)?;
            Ok(Word { text, place })
        }
        _ => Err(ReadError::Refused(at)),
    }
}

fn name_of(alloc: Global, kind: &TokenKind, place: Place, at: usize) -> Result<Word, ReadError>
    ensures { Gives (λ word. word) (token.name_of kind.now place) result }
{
    match kind {
        TokenKind::Word(name) => {
            let text = name.copy(alloc)?;
            Ok(Word { text, place })
        }
        TokenKind::Qualified(name) => {
            let text = name.copy(alloc)?;
            Ok(Word { text, place })
        }
        _ => Err(ReadError::Refused(at)),
    }
}

/// The plain word at a place.
pub fn word(alloc: Global, tokens: &[Token], at: usize) -> Result<Word, ReadError>
    ensures value { Gives (λ word. word) (token.word_at tokens.now at) result }
    ensures within { IfOk result (λ _. at < length tokens.now) }
{
    match tokens.get(at) {
        Some(token) => word_of(alloc, &token.kind, token.place, at),
        None => Err(ReadError::Refused(at)),
    }
}

/// The word at a place, plain or qualified.
pub fn name(alloc: Global, tokens: &[Token], at: usize) -> Result<Word, ReadError>
    ensures value { Gives (λ word. word) (token.name_at tokens.now at) result }
    ensures within { IfOk result (λ _. at < length tokens.now) }
{
    match tokens.get(at) {
        Some(token) => name_of(alloc, &token.kind, token.place, at),
        None => Err(ReadError::Refused(at)),
    }
}

fn number_of(kind: &TokenKind) -> Option<i64>
    ensures { result ≡ token.number_of kind.now }
{
    match kind {
        TokenKind::Number(number) => Some(*number),
        _ => None,
    }
}

/// The number at a place.
pub fn number(tokens: &[Token], at: usize) -> Option<i64>
    ensures value { result ≡ token.number_at tokens.now at }
    ensures within { IfSome result (λ _. at < length tokens.now) }
{
    match tokens.get(at) {
        Some(token) => number_of(&token.kind),
        None => None,
    }
}
