//! What is kept of an explanation without one of its decisions, and when each is needed: definitions, and their laws.

mod laws;

pub use laws::{most_is_kept, shortening_is_exact};
