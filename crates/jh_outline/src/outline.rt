//! The outline of a program: all that the commands of its methods are made from.

mod draft;
mod framing;
mod listing;

pub use draft::{Declared, Draft, Tabled, draft_of};
