//! The tokens of a source: code, and in it specifications, and in these formulas.

mod character;
mod code;
mod cursor;
mod ends;
mod error;
mod formula;
mod kind;
mod lexeme;
mod lexing;
mod mode;
mod qualified;
mod specification;
mod symbol;
mod tables;
mod token;

pub use error::LexError;
pub use lexing::{at_most_one_fault, at_most_one_list, places_rise, shape_of_tokens, tokens};
pub use mode::Mode;
pub use qualified::halves;
pub use symbol::Symbol;
pub use token::{Token, TokenKind};
