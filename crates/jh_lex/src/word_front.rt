//! How long the word is that stands at the front of a text, or the two words with a dot between them.

mod character;
mod front;

pub use character::starts_word;
pub use front::{qualified_len, word_len};
