//! What the steps of a derivation need and add, over the nodes of a table.

mod adding;
mod citing;
mod closing;
mod equations;
mod fields;
mod forming;
mod making;
mod nodes;
mod opening;
mod parting;
mod rules;
mod updates;

pub use closing::is_closed;
pub use nodes::{Adds, NodeRule, NodeStep, Nodes};
pub use rules::rule_of;
