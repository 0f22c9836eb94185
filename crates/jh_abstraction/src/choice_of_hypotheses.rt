//! Which hypotheses of a sequent its query keeps, over the nodes of a table.

mod choosing;
mod labels;
mod near;
mod reached;

pub use choosing::kept_facts;
