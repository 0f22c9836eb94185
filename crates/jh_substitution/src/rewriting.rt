//! One walk over formulas that are nodes of a table, with a memo, so that shared parts cost once; and
//! what comes of it: a term put for a binder's variable, and a value put for a free name.

mod exchanging;
mod laws;
mod leaves;
mod memo;
mod naming;
mod opening;
mod rules;
mod seen;
mod substituting;
mod walking;

pub use exchanging::exchange;
pub use laws::map_changes_nothing;
pub use naming::names;
pub use opening::open;
pub use rules::LeafRules;
pub use substituting::subst;
pub use walking::walked;
