//! Reads the words of a command line: from the words to the job that they ask for, or to the text that says what may be asked for.
#![tactic(auto)]

mod command;
mod job;
mod reading;
mod usage;

pub use job::{Gen, Job, Run, Verify};
pub use reading::{WordsError, read};
pub use usage::{no_method, page};
