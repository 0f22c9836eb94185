//! Steps of a derivation that add entries of the ground search to the facts of a sequent.

mod bodies;
mod choosing;
mod counting;
mod facts;
mod instances;
mod pieces;
mod prelude;
mod refuting;
mod walking;
mod witnesses;

pub use prelude::write_entries;
