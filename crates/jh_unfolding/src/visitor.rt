//! The statements of a method, each visited in its scope.

mod entering;
mod visiting;
mod walking;

pub use entering::entry;
pub use visiting::Visit;
pub use walking::visit_all;
