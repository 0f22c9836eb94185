//! From a file to the reply that `verify` gives.
#![tactic(auto)]

ghost use Rattle.std.specs.Prelude.{◌≡◌, ◌-◌, ◌<◌, ◌^◌, ℕ, List, length, string_bytes};
ghost use Rattle.jh_ast.specs.Bare.{program_tree};
ghost use Rattle.jh_run.specs.jh_logic.source.Laws.{IsAccepted};
ghost use Rattle.jh_vars.specs.Reading.{IsAcyclic};
ghost use Rattle.jh_reply.specs.Causes.{FitsBytes, FitsFile, IsReply, files_seen};

use crate::error::Unreported;
use crate::reading::{SOURCE_LIMIT, read, spelled_source_is_accepted};
use crate::reply::{Reply, reply_to_fault, reply_to_refusal};
use crate::reporting::verify;
use crate::status::Status;
use jh_files::Files;
use jh_name::options::Options;
use jh_run::jh_unfolding::unfolder::Unfolded;
use std::alloc::Global;

fn reply_to_program(alloc: Global, options: Options, source: Unfolded) -> Reply
    requires leaves { 0 < options.leaves }
    requires accepted { IsAccepted (program_tree source.program) }
    requires acyclic { IsAcyclic (program_tree source.program) }
    ensures { IsReply options (program_tree source.program) result }
{
    match verify(alloc, options, source) {
        Ok(verified) => Reply::Report(verified.text, verified.accepted),
        Err(Unreported::Crowded(text)) => Reply::Line(text, Status::Refused),
        Err(Unreported::Memory) => Reply::NoMemory,
    }
}

fn reply_to_bytes(alloc: Global, options: Options, bytes: &[u8]) -> Reply
    requires leaves { 0 < options.leaves }
    requires little { length bytes.now < 2 ^ 32 - 1 }
    ensures { FitsBytes options bytes.now result }
{
    spelled_source_is_accepted();
    match read(alloc, bytes) {
        Ok(source) => reply_to_program(alloc, options, source),
        Err(refusal) => reply_to_refusal(alloc, refusal),
    }
}

/// What `verify` of a file comes to.
pub fn verify_file<F: Files>(alloc: Global, file: &str, options: Options, files: &mut F) -> Reply
    requires { 0 < options.leaves }
    ensures fits { FitsFile options (files_seen (F.holds files.old) (F.faults files.old) (F.faults files.new)) file.now result }
    ensures held { (name : List ℕ) → F.holds files.new name ≡ F.holds files.old name }
{
    match files.get(alloc, file, SOURCE_LIMIT) {
        Ok(bytes) => reply_to_bytes(alloc, options, bytes.as_slice()),
        Err(fault) => reply_to_fault(alloc, file, fault),
    }
}
