//! What is said of a boxed sequent, and its query.

mod entering;
mod proving;
mod querying;

pub use jh_prove::prover::{Answer, BapaCause, Verdict};
pub use proving::prove;
pub use querying::bapa_of;
