//! The facts of a sequent and their instances, as nodes of a table, with the source, the terms and the constants of each.

mod beginning;
mod counting;
mod entry;
mod making;
mod putting;
mod rounds;

pub use beginning::MOST_NODES;
pub use counting::count;
pub use entry::{NodeEntries, NodeEntry, Origin};
pub use making::{InstanceError, Progress};
pub use rounds::{MOST_INSTANCES, entries, first_entries, last_entries};
