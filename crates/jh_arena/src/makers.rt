//! Makers of nodes: from the nodes of the parts to the node of the whole, with clauses that speak of trees
//! alone, so that a caller needs no proof that a shape fits.

mod fields;
mod formulas;
mod labels;
mod leaves;
mod lists;
mod numbers;
mod objects;
mod reaches;
mod sets;

pub use fields::update;
pub use formulas::{
    at_most, conjunction, disjunction, divides, equivalence, falsehood, for_all, for_some,
    implication, less, member, negation, read_truth, same_number, same_object, same_set, subset,
    truth,
};
pub use labels::labelled;
pub use leaves::{bound, free_field, free_number, free_object, free_set, free_truth};
pub use lists::{conjunction_of, implication_of};
pub use numbers::{cardinality, constant, difference, multiple, negative, read_number, sum};
pub use objects::{null, read_object};
pub use reaches::{forest, reach};
pub use sets::{
    all_objects, complement, comprehension, empty_set, intersection, read_set, set_difference,
    singleton, union_of,
};
