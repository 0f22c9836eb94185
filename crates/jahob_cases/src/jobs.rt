//! What `jh_words` makes of command lines.

use crate::reading::words_of;
use jh_name::NoMemory;
use jh_words::{Job, WordsError, page, read};
use std::alloc::{AllocError, Global};

/// A job as a line.
fn job_line(alloc: Global, job: &Job<'_>) -> Result<String, AllocError> {
    match job {
        Job::Verify(verify) => format!(in alloc;
            "verify {} rounds {} leaves {} workers {}\n",
            verify.file, verify.options.rounds, verify.options.leaves, verify.workers
        ),
        Job::Run(run) => format!(in alloc;
            "run {} {} . {} {} steps {}\n",
            run.file, run.class, run.method, run.heap, run.steps
        ),
        Job::Gen(made) => format!(in alloc; "gen {} {}\n", made.seed, made.methods),
    }
}

/// What is said before the page that says what may be asked for, which is left out.
fn without_page(answer: &str) -> &str {
    match answer.strip_suffix(page()) {
        Some("") => "(the page)\n",
        Some(front) => front.trim_end(),
        None => answer,
    }
}

/// What is said to some words: their job as a line, or what stands before the page.
fn said(alloc: Global, words: &[String]) -> Result<String, AllocError> {
    match read(alloc, words) {
        Ok(job) => job_line(alloc, &job),
        Err(WordsError::Usage(text)) => String::from_str(alloc, without_page(text.text())),
        Err(WordsError::Memory) => String::from_str(alloc, "no memory\n"),
    }
}

/// What is said to the words of a line.
pub fn said_to(alloc: Global, line: &str) -> Result<String, NoMemory> {
    let words = words_of(alloc, line)?;
    let said = said(alloc, words.as_slice())?;
    Ok(said)
}
