//! What waits on the machine's stack, and calls with their ends.

mod calling;
mod entering;
mod frames;
mod leaving;
mod receiving;

pub use calling::call;
pub use entering::enter;
pub use frames::{Back, Frame, Way, Work, push};
pub use leaving::leave;
