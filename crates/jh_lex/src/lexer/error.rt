ghost use Rattle.std.specs.Prelude.{◌≡◌};
ghost use Rattle.jh_lex.specs.declared.lexer.error.LexError.TheVariants.{Memory};

use jh_name::{NoMemory, Place};
use std::alloc::{AllocError, AllocFailed};
use thiserror::Error;

/// Why a source has no tokens, with the place of the fault. `NotUtf8` comes before all others; of
/// these the first in the text is answered.
#[derive(Clone, Copy, Debug, PartialEq, Eq, Error)]
pub enum LexError {
    /// The source isn't UTF-8; the place is that of the first byte at fault.
    #[error("not UTF-8 at {}:{}", .0.line, .0.column)]
    NotUtf8(Place),
    /// No token of its mode begins with this character.
    #[error("no token begins at {}:{}", .0.line, .0.column)]
    BadChar(Place),
    /// A `/*` has no `*/` behind it.
    #[error("the comment at {}:{} has no end", .0.line, .0.column)]
    OpenComment(Place),
    /// A quote has no second one behind it in its specification.
    #[error("the quote at {}:{} has no end", .0.line, .0.column)]
    OpenQuote(Place),
    /// A number is above the greatest `i64`.
    #[error("the number at {}:{} is too great", .0.line, .0.column)]
    TooWide(Place),
    /// Memory ran out.
    #[error("no memory")]
    Memory,
}

impl From<AllocError> for LexError {
    ghost from_gives = { λ _ e. e ≡ Memory };

    fn from(_error: AllocError) -> LexError {
        LexError::Memory
    }
}

impl<T: Drop> From<AllocFailed<T>> for LexError {
    ghost from_gives = { λ _ e. e ≡ Memory };

    fn from(_error: AllocFailed<T>) -> LexError {
        LexError::Memory
    }
}

impl From<NoMemory> for LexError {
    ghost from_gives = { λ _ e. e ≡ Memory };

    fn from(_error: NoMemory) -> LexError {
        LexError::Memory
    }
}
