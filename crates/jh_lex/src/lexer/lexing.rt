ghost use Rattle.std.specs.Prelude.{◌≡◌, ℕ, ◌+◌, ◌<◌, ◌≤◌, ◌^◌, length, take, List, IfOk, IfErr, MatchResult};
ghost use Rattle.std.specs.Str.{chars, IsUtf8};
ghost use Rattle.jh_lex.specs.lexer.Places.{start, after};
ghost use Rattle.jh_lex.specs.lexer.Lexes.{Lexes, IsFirstFault};
ghost use Rattle.jh_lex.specs.lexer.Modes.{mode_after_all};
ghost use Rattle.jh_lex.specs.lexer.Rising.{Rises};
ghost use Rattle.jh_lex.specs.lexer.Shapes.{HasShape, EndsWithEnd};
ghost use Rattle.jh_lex.specs.declared.lexer.error.LexError.{LexError};
ghost use Rattle.jh_lex.specs.declared.lexer.token.Token.{Token};
ghost use Rattle.jh_lex.specs.lexer.Reports.{UnlessMemory};

use crate::lexer::code::code;
use crate::lexer::cursor::Cursor;
use crate::lexer::{LexError, Mode, Token, TokenKind};
use jh_name::Place;
use std::alloc::{AllocError, Global};
use std::str::from_utf8;

/// The characters of a text.
fn characters(alloc: Global, text: &str) -> Result<Vec<char>, AllocError>
    ensures { IfOk result (λ made. made.items ≡ chars text.now) }
{
    text.chars().collect(alloc)
}

/// The place behind the first `n` bytes, which are UTF-8.
fn place_behind(alloc: Global, bytes: &[u8], n: usize) -> Result<Place, AllocError>
    requires short { length bytes.now + 1 < 2 ^ 32 }
    requires within { n ≤ length bytes.now }
    requires utf8 { IsUtf8 (take n bytes.now) }
    ensures { IfOk result (λ place. place ≡ after start (chars (take n bytes.now))) }
{
    match from_utf8(&bytes[..n]) {
        Err(_) => unreachable!(),
        Ok(front) => {
            let front = characters(alloc, front)?;
            let text = Cursor::start(&front);
            Ok(text.skip(front.len()).place)
        }
    }
}

/// The tokens of a text.
fn text_tokens(alloc: Global, text: &str) -> Result<Vec<Token>, LexError>
    requires { length text.now + 1 < 2 ^ 32 }
    ensures tokens { IfOk result (λ made. Lexes text.now made.items) }
    ensures fault { IfErr result (λ e. UnlessMemory e (IsFirstFault text.now e)) }
{
    let characters = characters(alloc, text)?;
    let at = Cursor::start(&characters);
    let mut out = Vec::new(alloc);
    code(alloc, at, &mut out)?;
    out.push(Token {
        kind: TokenKind::End,
        place: at.skip(characters.len()).place,
    })?;
    Ok(out)
}

/// The tokens of a source, of which the last one is `End`.
///
/// A source that isn't UTF-8 is refused as `NotUtf8`. Of the other faults the first in the text is
/// answered: `BadChar`, `OpenComment`, `OpenQuote` or `TooWide`, each with its place. The source has
/// fewer than 4,294,967,295 bytes, so that lines and columns are numbers of 32 bits.
pub fn tokens(alloc: Global, bytes: &[u8]) -> Result<Vec<Token>, LexError>
    requires { length bytes.now + 1 < 2 ^ 32 }
    // What is answered are the tokens of the source.
    ensures tokens { IfOk result (λ made. Lexes bytes.now made.items) }
    // What is refused has this fault first.
    ensures fault { IfErr result (λ e. UnlessMemory e (IsFirstFault bytes.now e)) }
    // A source that has tokens is refused for want of memory alone.
    ensures accepted { (all : List Token) → Lexes bytes.now all →
        MatchResult result (λ made. made.items ≡ all) (λ e. e ≡ LexError.Memory) }
    // A source with a fault is refused for its first one.
    ensures refused { (first : LexError) → IsFirstFault bytes.now first →
        MatchResult result (λ _. ⊥) (λ e. UnlessMemory e (e ≡ first)) }
{
    read(alloc, bytes)
}

/// The tokens of a source, or its first fault.
fn read(alloc: Global, bytes: &[u8]) -> Result<Vec<Token>, LexError>
    requires { length bytes.now + 1 < 2 ^ 32 }
    ensures tokens { IfOk result (λ made. Lexes bytes.now made.items) }
    ensures fault { IfErr result (λ e. UnlessMemory e (IsFirstFault bytes.now e)) }
{
    match from_utf8(bytes) {
        Ok(text) => text_tokens(alloc, text),
        Err(error) => {
            let place = place_behind(alloc, bytes, error.valid_up_to())?;
            Err(LexError::NotUtf8(place))
        }
    }
}

/// At most one list of tokens belongs to given bytes.
pub fn at_most_one_list()
    ensures { (bytes : List ℕ) (one other : List Token) →
        Lexes bytes one → Lexes bytes other → one ≡ other }
{}

/// At most one fault is the first of given bytes, and bytes that have one have no tokens.
pub fn at_most_one_fault()
    ensures one { (bytes : List ℕ) (one other : LexError) →
        IsFirstFault bytes one → IsFirstFault bytes other → one ≡ other }
    ensures none { (bytes : List ℕ) (fault : LexError) (all : List Token) →
        IsFirstFault bytes fault → Lexes bytes all → ⊥ }
{}

/// Each token of a source fits the mode in which it stands: a specification opens in code, a formula in a specification, and
/// each ends in the mode that it opened. A word isn't empty, holds no space, line feed or dot, and isn't `this` outside
/// formulas; a qualified word is two words with a dot between them. All names have turn 0, and no number is below 0. What
/// was opened is closed, and the last token is `End`.
pub fn shape_of_tokens()
    ensures shape { (bytes : List ℕ) (all : List Token) → Lexes bytes all → HasShape all }
    ensures closed { (bytes : List ℕ) (all : List Token) → Lexes bytes all → mode_after_all Mode.Code all ≡ Mode.Code }
    ensures ends { (bytes : List ℕ) (all : List Token) → Lexes bytes all → EndsWithEnd all }
{}

/// Places rise from token to token of a source, so that no two tokens stand at one place. Only where the end of the source closes
/// a specification do that end and `End` have one place.
pub fn places_rise()
    ensures { (bytes : List ℕ) (all : List Token) → Lexes bytes all → Rises all }
{}
