//! Whether the nodes that a step of a derivation names are closed, several at once.

mod closing;

pub use closing::{
    field, field_term, formula, formulas, reading, replacing, term, three, value, values,
    with_term, with_value,
};
