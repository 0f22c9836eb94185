//! Formulas by schemas over three names, as nodes of a table.

mod making;
mod schema;

pub use making::from_schema;
pub use schema::{Named, NumberSchema, ObjectSchema, Schema, SetSchema, Slot, Slots};
