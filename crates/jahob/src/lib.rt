//! Proves the methods of a program with specifications and reports each verdict, and runs methods on heaps.
#![tactic(auto)]

mod top;

pub use jh_reply::at_most_one_refusal;
pub use top::{jahob, say_no_memory};
