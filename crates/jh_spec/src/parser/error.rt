ghost use Rattle.std.specs.Prelude.{◌≡◌};
ghost use Rattle.jh_spec.specs.declared.parser.error.ParseError.TheVariants.{Memory};

use jh_name::{NoMemory, Place};
use std::alloc::{AllocError, AllocFailed};
use thiserror::Error;

/// Why tokens spell nothing, with the place of a token.
#[derive(Clone, Copy, Debug, PartialEq, Eq, Error)]
pub enum ParseError {
    /// Nothing is spelled; reading stopped at the token of this place.
    #[error("syntax at {}:{}", .0.line, .0.column)]
    Syntax(Place),
    /// The token of this place is the first whose nesting exceeds 64.
    #[error("nested too deep at {}:{}", .0.line, .0.column)]
    TooDeep(Place),
    /// Memory ran out.
    #[error("no memory")]
    Memory,
}

impl From<AllocError> for ParseError {
    ghost from_gives = { λ _ e. e ≡ Memory };

    fn from(_error: AllocError) -> ParseError {
        ParseError::Memory
    }
}

impl<T: Drop> From<AllocFailed<T>> for ParseError {
    ghost from_gives = { λ _ e. e ≡ Memory };

    fn from(_error: AllocFailed<T>) -> ParseError {
        ParseError::Memory
    }
}

impl From<NoMemory> for ParseError {
    ghost from_gives = { λ _ e. e ≡ Memory };

    fn from(_error: NoMemory) -> ParseError {
        ParseError::Memory
    }
}
