//! How many instances universals can have, found without making them.

mod capped;
mod counting;
mod groups;
mod powers;
mod tallies;
mod weighing;

pub use counting::count_from;
