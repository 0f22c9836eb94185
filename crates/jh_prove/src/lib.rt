//! What is said of each sequent.
#![tactic(auto)]

pub mod prover;
pub mod trivial;

pub use jh_approx;
pub use jh_approx::jh_normal_forms;
pub use jh_local;
pub use jh_local::jh_instantiation;
pub use jh_splitting;
