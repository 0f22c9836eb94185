//! What commands do to the state, over the nodes of a table.

mod changing;
mod frames;
mod growth;
mod items;
mod names;

pub use changing::{push_changed, push_copies};
pub use frames::push_frames;
pub use growth::push_growth;
pub use items::state_names;
pub use names::SortedName;
