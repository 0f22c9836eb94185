//! How deep the tokens of a source are nested: found by a pass of its own, before anything is parsed, so that no source
//! makes the parsers recur without bound.

mod nesting;

pub use nesting::too_deep;
