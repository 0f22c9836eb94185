ghost use Rattle.std.specs.Prelude.{◌≡◌, ◌<◌, length, IfOk};
ghost use Rattle.jh_lex.specs.lexer.Lexemes.{name_of, small_value, number_kind, word_kind, kind_of};
ghost use Rattle.jh_lex.specs.lexer.Symbols.{text_of, is_text, find_text};

use crate::lexer::lexeme::begins_with;
use crate::lexer::tables::{reserved, signs};
use crate::lexer::{Mode, Symbol, TokenKind};
use crate::word_front::starts_word;
use jh_name::{Name, NoMemory};
use std::alloc::Global;

/// The greatest number that is a token.
const GREATEST: u64 = 9_223_372_036_854_775_807;

/// Whether this is the text of the symbol.
fn is_text(symbol: Symbol, text: &[char]) -> bool
    ensures { result ≡ is_text (text_of symbol) text.now }
{
    let found = symbol.text();
    begins_with(text, found) && found.len() == text.len()
}

/// The symbol of the table that has this text.
fn find_text(table: &[Symbol], text: &[char]) -> Option<Symbol>
    ensures { result ≡ find_text table.now text.now }
{
    for symbol in table {
        if is_text(*symbol, text) {
            return Some(*symbol);
        }
    }
    None
}

/// The name of these characters, at turn 0.
fn name_of(alloc: Global, text: &[char]) -> Result<Name, NoMemory>
    ensures { IfOk result (λ made. made ≡ name_of text.now) }
{
    let mut word = String::new(alloc);
    for c in text {
        word.push(*c)?;
    }
    jh_name::name(alloc, word.as_str(), 0)
}

/// The number that these digits spell, unless it is above the greatest.
fn number(digits: &[char]) -> Option<u64>
    ensures { result ≡ small_value digits.now }
{
    let mut value: u64 = 0;
    for c in digits {
        let digit = u64::from(u32::from(*c).saturating_sub(48));
        if value > (GREATEST - digit) / 10 {
            return None;
        }
        value = value * 10 + digit;
    }
    Some(value)
}

/// The number token of these digits, unless it is above the greatest.
fn number_kind(digits: &[char]) -> Option<TokenKind>
    ensures { result ≡ number_kind digits.now }
{
    match number(digits) {
        Some(value) => Some(TokenKind::Number(value as i64)),
        None => None,
    }
}

/// What a word is.
fn word_kind(alloc: Global, mode: Mode, text: &[char]) -> Result<TokenKind, NoMemory>
    ensures { IfOk result (λ kind. kind ≡ word_kind mode text.now) }
{
    match find_text(reserved(mode), text) {
        Some(symbol) => Ok(TokenKind::Symbol(symbol)),
        None => Ok(TokenKind::Word(name_of(alloc, text)?)),
    }
}

/// What a token is. `None` is a number above the greatest.
pub(crate) fn kind_of(
    alloc: Global,
    mode: Mode,
    text: &[char],
) -> Result<Option<TokenKind>, NoMemory>
    requires { 0 < length text.now }
    ensures { IfOk result (λ kind. kind ≡ kind_of mode text.now) }
{
    let first = text[0];
    if starts_word(first) {
        if text.contains(&'.') {
            return Ok(Some(TokenKind::Qualified(name_of(alloc, text)?)));
        }
        return Ok(Some(word_kind(alloc, mode, text)?));
    }
    if first.is_ascii_digit() {
        return Ok(number_kind(text));
    }
    match find_text(signs(mode), text) {
        Some(symbol) => Ok(Some(TokenKind::Symbol(symbol))),
        None => Ok(None),
    }
}
