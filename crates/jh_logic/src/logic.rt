//! Valid formulas make programs sound.

mod laws;

pub use laws::valid_makes_sound;
