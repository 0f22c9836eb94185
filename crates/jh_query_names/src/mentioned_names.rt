//! What the choice of hypotheses asks of each fact of a method, noted once for each node.

mod linking;
mod memo;
mod noting;

pub use linking::{has_links, is_class_set, links};
pub use memo::{Memo, Note};
pub use noting::{free_names, mention, names_of};
