//! Normal forms over nodes: negation normal form, opened sets, idle updates; and the parts of nodes.
#![tactic(auto)]

pub mod idle_updates;
pub mod negation_normal_form;
pub mod parts;
pub mod rebuilding;
pub mod set_opening;
