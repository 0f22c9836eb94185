//! The splitting of formulas into sequents.

mod laws;

pub use laws::split_is_exact;
