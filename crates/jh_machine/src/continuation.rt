//! What is still to be done while a method runs, and what comes of it.

mod laws;
mod stop;

pub use laws::runs_are_resumed;
pub use stop::Stop;
