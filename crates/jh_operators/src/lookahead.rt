//! What stands at a place of the tokens of a source, in the words of the parsers: both of them, that of specifications
//! and that of programs, look at tokens by these calls alone.

mod building;
mod error;
mod modifying;
mod standing;

pub use building::{boxed, boxed_two};
pub use error::ReadError;
pub use modifying::{allowed, has, modifiers};
pub use standing::{
    behind, is_end, is_name, is_number, is_plain_word, is_quote_close, is_quote_open,
    is_spec_close, is_spec_open, is_symbol, is_word, name, number, place, word,
};
