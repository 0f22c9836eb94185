//! The formulas of a contract at a call: each name becomes the one that stands for it there.

mod calling;
mod renaming;

pub use calling::{Calling, is_among};
pub use renaming::at_call;
