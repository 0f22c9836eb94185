//! One place for the cases of the formula types: sizes, and mapping over leaves.
#![tactic(auto)]

pub use jh_name;

mod boxes;
mod copying;
mod counting;
mod extent;
mod laws;
mod mapping;
mod passing;
mod same_leaves;
mod walk;
mod walking;

pub use boxes::{boxed, boxed_two};
pub use copying::{copy_mark, copy_names};
pub use counting::{Extent, NOTHING, beside, deeper, over};
pub use laws::{map_keeps_meaning, part_is_smaller};
pub use mapping::{map_field, map_formula, map_int, map_set, map_term, map_value};
pub use passing::{names_field, names_formula, names_int, names_set, names_term, names_value};
pub use same_leaves::{Unchanged, copy};
pub use walk::{Leaves, NameTest, Walk};
