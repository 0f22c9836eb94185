//! Steps of commands that several statements have, over the nodes of a table.

mod checks;
mod claims;
mod facts;
mod formulas;
mod puts;

pub use checks::{assert_bare, assert_check, assert_checks};
pub use claims::{assert_claim, assert_claims, assume_claim, assume_claims, claim_mark};
pub use facts::{assume_fact, assume_named, bare_mark, named_fact};
pub use formulas::formula_node;
pub use puts::{assign_name, put, put_field};
