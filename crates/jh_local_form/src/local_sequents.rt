//! The local form of a sequent whose formulas are nodes of a table.

mod choosing;
mod each;
mod forming;
mod labels;
mod localizing;

pub use forming::LocalForm;
pub use localizing::local_of;
