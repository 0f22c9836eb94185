//! That programs which texts spell fit heap texts.

mod laws;

pub use laws::what_is_spelled_fits;
