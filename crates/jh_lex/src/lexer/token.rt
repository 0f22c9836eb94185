ghost use Rattle.std.specs.Prelude.{◌≡◌};
ghost use Rattle.jh_lex.specs.lexer.Numbers.{kind_number};

use crate::lexer::Symbol;
use jh_name::{Name, Place};

/// A token of a source, and where it begins.
#[derive(PartialEq, Eq, Drop)]
pub struct Token {
    pub kind: TokenKind,
    pub place: Place,
}

/// What a token is.
#[derive(PartialEq, Eq, Drop)]
pub enum TokenKind {
    /// A word that its mode doesn't reserve, as a name of turn 0.
    Word(Name),
    /// Two words with a dot between, in a specification or a formula: one name of turn 0, which
    /// keeps the dot. Its halves may be reserved words.
    Qualified(Name),
    /// A number in decimal, from 0 to the greatest `i64`.
    Number(i64),
    /// A sign, or a word that its mode reserves.
    Symbol(Symbol),
    /// `/*:` or `//:`, where a specification begins.
    SpecOpen,
    /// The end of a specification: `*/`, or the end of the line.
    SpecClose,
    /// The quote before a formula.
    QuoteOpen,
    /// The quote behind a formula.
    QuoteClose,
    /// The end of the source. It is the last token, and the only one of its kind.
    End,
}

impl TokenKind {
    /// A number that tells the kinds apart: that of the symbol below 75, and from there a number for each kind with
    /// other texts or none.
    pub fn number(&self) -> u8
        ensures { result ≡ kind_number self.now }
    {
        match self {
            TokenKind::Symbol(symbol) => symbol.number(),
            TokenKind::Word(_) => 75,
            TokenKind::Qualified(_) => 76,
            TokenKind::Number(_) => 77,
            TokenKind::SpecOpen => 78,
            TokenKind::SpecClose => 79,
            TokenKind::QuoteOpen => 80,
            TokenKind::QuoteClose => 81,
            TokenKind::End => 82,
        }
    }
}
