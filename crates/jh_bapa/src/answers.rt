//! What regions say of a sequent, by its query.

mod answer;

pub use answer::{BapaCause, Regional, answer_of};
