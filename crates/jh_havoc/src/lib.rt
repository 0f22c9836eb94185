//! What is known where the state may be any, and what is shown before it is: at the entry of a method, after a call, in a
//! turn of a loop.
#![tactic(auto)]

pub use jh_command_statements;

mod claims;
mod states;

pub use claims::{owed, push_kept, push_owed};
pub use states::push_state;
