//! No method of a made source has many sequents.

mod laws;

pub use laws::made_owes_few;
