//! Parameters and locals in a memory: saved, cleared, given and put back.

mod locals;

pub use locals::{Saved, clear, put_args, put_this, restore, save};
