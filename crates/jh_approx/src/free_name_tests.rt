//! That a test of free names is decided by the free names that are parts of a tree.

mod laws;

pub use laws::free_names_decide;
