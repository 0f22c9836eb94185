//! Queries about sets, elements and numbers of which only sizes matter: what they are, what makes them true, and how
//! large they are.

mod atoms;
mod counting;
mod demands;
mod holding;
mod inside;
mod laws;
mod matching;
mod measuring;
mod query;
mod reading;
mod rows;
mod shaping;
mod sizes;

pub use counting::{classes_inside, is_first};
pub use demands::{Demand, demanded};
pub use holding::is_true;
pub use inside::{class_lies, rest_lies, spot_of};
pub use laws::{
    classes_may_be_renamed, numbers_are_linear, placements_are_bounded, same_atoms_are_equal,
};
pub use matching::same_atom;
pub use measuring::size;
pub use query::{Cond, Num, Query, SetExpr};
pub use reading::{Part, part_of};
pub use rows::{Side, part_of_side};
pub use shaping::fits;
pub use sizes::{Sizes, Spot, Whole};
