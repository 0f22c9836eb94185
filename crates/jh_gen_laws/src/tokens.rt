//! How the text of a made source is cut into tokens.

mod laws;

pub use laws::made_is_cut;
