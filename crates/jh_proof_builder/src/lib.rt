//! Derivations as they are written: steps over the nodes of a table, and calls on nodes that take any numbers.
#![tactic(auto)]

pub use jh_derivation_steps;

mod atoms;
mod boxing;
mod constants;
mod forming;
mod lines;
mod nodes;
mod opening;
mod stating;

pub use atoms::{arguments, equation, is_equation, same_head, with_argument};
pub use boxing::{MOST_NESTED, boxed_steps};
pub use constants::constant;
pub use forming::{conjunction, disjunction, equivalence, existence, negation, opened, universal};
pub use lines::{Line, add_step, joined};
pub use nodes::{is_formula, is_object, shape_of};
pub use opening::{Form, form_of, laid_open};
pub use stating::{Stated, asserted, denied, stated_node};
