//! Lists that share what they begin with, counts that stop at the greatest, and graphs over numbers: closure, order, components.
#![tactic(auto)]

pub mod capped_counts;
pub mod connected_component;
pub mod shared_lists;
pub mod topological_order;
pub mod transitive_closure;
