//! From the words of a command line to the job that they ask for.
#![tactic(auto)]

ghost use Rattle.std.specs.Prelude.{◌≡◌, None, Some, map, string_bytes, IfOk, IfErr};
ghost use Rattle.jh_words.specs.CommandLine as spec;
ghost use Rattle.jh_words.specs.Held.{job_in};
ghost use Rattle.jh_words.specs.Usage.{IsRefusal};

use crate::command::job_of;
use crate::job::Job;
use crate::usage::usage;
use jh_name::{NoMemory, Text};
use std::alloc::Global;

/// Why there is no job.
#[derive(Drop)]
pub enum WordsError {
    /// The words ask for nothing; the text says what is wrong with them and what may be asked for.
    Usage(Text),
    /// Memory ran out.
    Memory,
}

/// Why words that ask for nothing have no job.
fn refusal(alloc: Global, words: &[String]) -> WordsError
    requires { spec.job_of (map (λ word. string_bytes word) words.now) ≡ None }
    ensures { IsRefusal (map (λ word. string_bytes word) words.now) result }
{
    match usage(alloc, words) {
        Ok(text) => WordsError::Usage(Text::of(text)),
        Err(NoMemory) => WordsError::Memory,
    }
}

/// The job that the words of a command line ask for. The words are those after the program's name. The texts of the job are those of the words.
///
/// `WordsError::Usage` comes exactly where they ask for nothing, want of memory aside.
pub fn read<'a>(alloc: Global, words: &'a [String]) -> Result<Job<'a>, WordsError>
    ensures job { IfOk result (λ job. spec.job_of (map (λ word. string_bytes word) words.now) ≡ Some (job_in job)) }
    ensures refusal { IfErr result (IsRefusal (map (λ word. string_bytes word) words.now)) }
{
    match job_of(alloc, words) {
        Ok(Some(job)) => Ok(job),
        Ok(None) => Err(refusal(alloc, words)),
        Err(NoMemory) => Err(WordsError::Memory),
    }
}
