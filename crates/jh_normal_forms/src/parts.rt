//! The parts of a node, each once, in the order in which they first stand, with a test of which are asked for.

mod asking;
mod finding;
mod list;
mod order;

pub use asking::{ClosedObjects, FieldLists, FreeNames, Updates};
pub use finding::PartTest;
pub use list::NodeList;
pub use order::Order;
