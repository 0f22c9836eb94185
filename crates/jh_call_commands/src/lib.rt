//! The commands of calls, cut at contracts.
#![tactic(auto)]

pub mod calls;
pub mod contract_instances;

pub use jh_command_terms;
pub use jh_havoc;
pub use jh_havoc::jh_command_statements;
