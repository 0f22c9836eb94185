//! What is said of each sequent of a method.

mod answer;
mod answering;
mod forms;
mod laws;
mod memo;
mod queries;
mod regions;
mod searching;
mod unlabelling;

pub use answer::{Answer, Verdict, answers_can_be_shared, is_unproved, status_of, verdict_of};
pub use answering::answers;
pub use forms::local_form_of_sequent;
pub use jh_bapa::answers::BapaCause;
pub use laws::{one_verdict_is_right, provable_is_proved, proved_is_valid};
pub use queries::query_of_sequent;
