//! The report.
#![tactic(auto)]

pub mod causes;
pub mod report;

pub use jh_prove;
pub use jh_splitting;
