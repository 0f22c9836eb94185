//! Interpretations as structures: what is true together in one has a ground model.

mod laws;

pub use laws::{no_model_gives_clash, truth_gives_model};
