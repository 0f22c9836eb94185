//! Congruence closure: which nodes are equal in every structure where some equations hold, and by which of them.

mod beginning;
mod classes;
mod closure;
mod equation;
mod explaining;
mod levels;
mod node;
mod settling;
mod signatures;

pub use closure::Closure;
pub use equation::Equation;
pub use node::{Node, are_parts_inside};
