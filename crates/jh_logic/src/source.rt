//! A source that breaks no type rule meets the premises of the law that valid formulas make programs sound.

mod laws;

pub use laws::{accepted_is_sound, accepted_meets_premises};
