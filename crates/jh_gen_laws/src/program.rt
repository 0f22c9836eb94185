//! Each made source spells a program, of which no method has many sequents.

mod laws;

pub use laws::made_is_program;
