//! The tokens of a made source spell a program.

mod laws;

pub use laws::made_is_spelled;
