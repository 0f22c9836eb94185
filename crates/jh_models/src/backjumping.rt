//! The path of a search with its decisions, and how it goes on and back: definitions, and their laws.

mod laws;

pub use laws::{search_goes_back, search_goes_on};
