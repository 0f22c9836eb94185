//! Several names substituted in one walk over a table, several binders opened in one, and loose bound variables
//! that rise.

mod lifting;
mod opening;
mod pairs;
mod several;

pub use lifting::lift;
pub use opening::open_several;
pub use pairs::{Instead, replacement};
pub use several::subst_several;
