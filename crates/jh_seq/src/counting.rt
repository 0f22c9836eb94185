//! How many sequents a weakest precondition is split into: definitions, and their law.

mod laws;

pub use laws::counted_is_exact;
