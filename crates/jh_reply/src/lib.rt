//! What a call of the tool comes to before anything is written: the report on a program, the summary of one that is made, what
//! a run prints, or why there is none of these.
#![tactic(auto)]

pub use jh_gen_laws::jh_obligations;
pub use jh_report::jh_prove;

mod error;
mod laws;
mod making;
mod reading;
mod reply;
mod reporting;
mod running;
mod status;
mod tallying;
mod verification;

pub use laws::at_most_one_refusal;
pub use making::sum_source;
pub use reading::spelled_source_is_accepted;
pub use reply::Reply;
pub use running::run_file;
pub use status::Status;
pub use verification::verify_file;
