//! For each class of nodes the numbers of the nodes with a part in it, as classes are joined and taken apart.

mod lists;

pub use lists::{add_use, no_uses, pass_uses, take_uses, uses_of};
