ghost use Rattle.std.specs.Prelude.{◌≡◌, ℕ, ◌<◌, length, take};
ghost use Rattle.std.specs.List.{prefix_len};
ghost use Rattle.std.specs.Char.{is_ascii_digit};
ghost use Rattle.jh_lex.specs.lexer.Lexemes.{IsLexeme, IsLongest, has_qualified};
ghost use Rattle.jh_lex.specs.lexer.Lengths.{symbol_length, sign_length, lexeme_length};
ghost use Rattle.jh_lex.specs.lexer.Symbols.{begins_with};

use crate::lexer::tables::signs;
use crate::lexer::{Mode, Symbol};
use crate::word_front::{qualified_len, word_len};

/// How many digits stand at the front.
fn number_len(text: &[char]) -> usize
    ensures { result ≡ prefix_len is_ascii_digit text.now }
{
    for (i, c) in text.iter().enumerate() {
        if !c.is_ascii_digit() {
            return i;
        }
    }
    text.len()
}

/// Whether the mode has qualified words.
fn has_qualified(mode: Mode) -> bool
    ensures { result ≡ has_qualified mode }
{
    match mode {
        Mode::Code => false,
        Mode::Specification => true,
        Mode::Formula => true,
    }
}

/// Whether the text begins with the characters of `front`.
pub(crate) fn begins_with(text: &[char], front: &str) -> bool
    ensures { result ≡ begins_with front.now text.now }
{
    let front = front.as_bytes();
    if text.len() < front.len() {
        return false;
    }
    for (i, b) in front.iter().enumerate() {
        if text[i] != char::from(*b) {
            return false;
        }
    }
    true
}

/// How many characters the symbol has, or 0 where it isn't at the front.
fn symbol_len(symbol: Symbol, text: &[char]) -> usize
    ensures { result ≡ symbol_length symbol text.now }
{
    let sign = symbol.text();
    if begins_with(text, sign) {
        sign.len()
    } else {
        0
    }
}

/// How many characters the longest sign of the table at the front has: 0 where there is none.
fn sign_len(table: &[Symbol], text: &[char]) -> usize
    ensures { result ≡ sign_length table.now text.now }
{
    let mut longest = 0;
    for symbol in table {
        longest = symbol_len(*symbol, text).max(longest);
    }
    longest
}

/// How many characters the longest token at the front has: 0 where there is none.
pub(crate) fn lexeme_len(mode: Mode, text: &[char]) -> usize
    ensures longest { 0 < result → IsLongest mode result text.now }
    ensures none { result ≡ 0 → (n : ℕ) → IsLexeme mode (take n text.now) → ⊥ }
{
    longest_len(mode, text)
}

/// How many characters the word, the number or the sign at the front has: at most one of them is there.
fn longest_len(mode: Mode, text: &[char]) -> usize
    ensures { result ≡ lexeme_length mode text.now }
{
    let word = word_len(text);
    if word > 0 {
        return qualified_len(has_qualified(mode), word, text);
    }
    let number = number_len(text);
    if number > 0 {
        return number;
    }
    sign_len(signs(mode), text)
}
