//! Names, places, kinds and sorts, and the lists and texts that public types hold.
#![tactic(auto)]

mod making;
mod memory;
mod naming;
pub mod options;
mod place;
mod row;
mod text;

pub use making::name;
pub use memory::NoMemory;
pub use naming::Name;
pub use place::{Kind, MethodId, Place, Sort};
pub use row::Row;
pub use text::Text;
