//! A walk over the nodes of a table that makes each part anew from below, with the polarity of its place.

mod memo;
mod polarity;
mod rules;
mod sign;
mod walking;

pub use polarity::Polarity;
pub use rules::BuildRules;
pub use walking::rebuild;
