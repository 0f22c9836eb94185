//! Lists of fields along which formulas reach, those that they lead to, and their axioms, over the nodes of a table.

mod backbones;
mod changing;
mod leading;
mod reaching;
mod testing;

pub use changing::changes;
pub use reaching::reach_axioms;
