//! The parser of specifications.

mod answering;
mod clauses;
mod error;
mod formulas;
mod held;
mod lists;
mod operators;
mod part;
mod parts;

pub use answering::{at_most_one_formula, at_most_one_part, formula, spec, start_near};
pub use error::ParseError;
pub use lists::{Contract, claimed_part, contract_part, items_part, loop_part, statements_part};
pub use part::{SpecItem, SpecPart};
