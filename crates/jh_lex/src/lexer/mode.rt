ghost use Rattle.std.specs.Prelude.{◌≡◌};
ghost use Rattle.jh_lex.specs.lexer.Modes.{mode_after};

use crate::lexer::TokenKind;

/// What kind of text stands at a place. Each mode has signs and reserved words of its own.
#[derive(Clone, Copy, PartialEq, Eq, Hash)]
pub enum Mode {
    /// The text of the program itself.
    Code,
    /// The text of a specification, from `/*:` to `*/` or from `//:` to the end of the line.
    Specification,
    /// The text between two quotes in a specification.
    Formula,
}

impl Mode {
    /// The mode of the token after one of this mode.
    pub fn after(self, kind: &TokenKind) -> Mode
        ensures { result ≡ mode_after self kind.now }
    {
        match kind {
            TokenKind::SpecOpen => Mode::Specification,
            TokenKind::SpecClose => Mode::Code,
            TokenKind::QuoteOpen => Mode::Formula,
            TokenKind::QuoteClose => Mode::Specification,
            _ => self,
        }
    }
}
