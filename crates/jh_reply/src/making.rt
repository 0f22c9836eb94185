//! From a number to the summary that `gen` gives.
#![tactic(auto)]

ghost use Rattle.std.specs.Prelude.{◌-◌, ◌<◌, ◌≤◌, ◌^◌, length};
ghost use Rattle.jh_ast.specs.Bare.{program_tree};
ghost use Rattle.jh_ast.specs.Programs.{ProgramTree};
ghost use Rattle.jh_run.specs.jh_logic.source.Laws.{IsAccepted};
ghost use Rattle.jh_vars.specs.Reading.{IsAcyclic};
ghost use Rattle.jh_words.specs.Held.{gen_in};
ghost use Rattle.jh_reply.specs.Causes.{FitsGen, FitsMade, IsSumReply};
ghost use Rattle.jh_reply.specs.Made.{IsTallied, default_options};

use crate::error::Unreported;
use crate::reading::{read, spelled_source_is_accepted};
use crate::reply::{Reply, reply_to_refusal};
use crate::status::Status;
use crate::tallying::tally;
use jh_gen::{Counts, source_of, summary};
use jh_gen_laws::program::made_is_program;
use jh_name::NoMemory;
use jh_name::options::Options;
use jh_run::jh_unfolding::unfolder::Unfolded;
use jh_words::Gen;
use std::alloc::Global;

/// The summary of a source with these counts.
fn reply_to_counts(alloc: Global, job: Gen, counts: Counts) -> Reply
    ensures { (p : ProgramTree) → IsTallied default_options p counts → IsSumReply (gen_in job) p result }
{
    match summary(alloc, job.seed, job.methods, counts) {
        Ok(text) => Reply::Summed(text, counts.unproved == 0),
        Err(NoMemory) => Reply::NoMemory,
    }
}

/// What is said of the program that a source spells, by the options that hold where none is given.
fn sum_program(alloc: Global, job: Gen, source: Unfolded) -> Reply
    requires accepted { IsAccepted (program_tree source.program) }
    requires acyclic { IsAcyclic (program_tree source.program) }
    ensures { IsSumReply (gen_in job) (program_tree source.program) result }
{
    let options = Options {
        rounds: 1,
        leaves: 5_000,
    };
    match tally(alloc, options, source) {
        Ok(counts) => reply_to_counts(alloc, job, counts),
        Err(Unreported::Crowded(text)) => Reply::Line(text, Status::Refused),
        Err(Unreported::Memory) => Reply::NoMemory,
    }
}

/// What is said of the bytes of a source.
fn sum_bytes(alloc: Global, job: Gen, bytes: &[u8]) -> Reply
    requires { length bytes.now < 2 ^ 32 - 1 }
    ensures { FitsMade (gen_in job) bytes.now result }
{
    spelled_source_is_accepted();
    match read(alloc, bytes) {
        Ok(source) => sum_program(alloc, job, source),
        Err(refusal) => reply_to_refusal(alloc, refusal),
    }
}

/// What `gen` comes to: a summary, or want of memory, since no source that is made is refused.
pub fn sum_source(alloc: Global, job: Gen) -> Reply
    requires { job.methods ≤ 200 }
    ensures { FitsGen (gen_in job) result }
{
    made_is_program();
    match source_of(alloc, job.seed, job.methods) {
        Ok(bytes) => sum_bytes(alloc, job, bytes.as_slice()),
        Err(NoMemory) => Reply::NoMemory,
    }
}
