//! Taking boxed formulas out of a table of nodes.
#![tactic(auto)]

mod making;
mod standing;
mod taking;

pub use taking::{
    MOST_NODES, boxed_field, boxed_formula, boxed_int, boxed_set, boxed_term, boxed_value as value,
};
