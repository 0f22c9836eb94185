//! What a program declares, as code: its classes, its members, its invariants and its methods.

mod claims;
mod classes;
mod listing;
mod state;

pub use claims::invariants;
pub use classes::class_texts;
pub use listing::{ClassMethod, methods};
pub use state::members;
