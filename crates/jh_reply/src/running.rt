//! From a file and a heap text to the reply that `run` gives.
#![tactic(auto)]

ghost use Rattle.std.specs.Prelude.{◌≡◌, ◌+◌, ◌-◌, ◌<◌, ◌^◌, ℕ, List, length, string_bytes, IfOk};
ghost use Rattle.jh_ast.specs.Bare.{program_tree};
ghost use Rattle.jh_reply.specs.Causes.{FitsHeap, FitsMethod, FitsOutcome, FitsRun, FitsSource, IsPageReply, IsUnreturnedReply, IsUsageReply, Says, bad_line_text, files_seen, heap_status, heap_text, ill_line_text, steps_out_text, stop_status, stop_text, stopped_text};
ghost use Rattle.jh_words.specs.Held.{run_in};

use crate::reading::{SOURCE_LIMIT, read};
use crate::reply::{Reply, reply_to_fault, reply_to_refusal, said};
use crate::status::Status;
use jh_files::Files;
use jh_name::{NoMemory, Place, Text};
use jh_run::jh_heap::text::HeapError;
use jh_run::jh_machine::continuation::Stop;
use jh_run::jh_unfolding::unfolder::Unfolded;
use jh_run::outcome::{Unreturned, has_method, run_method};
use jh_words::{Run, no_method, page};
use std::alloc::Global;

/// The line for a run that stops at a place.
fn stopped_line(alloc: Global, kind: &str, place: Place) -> Result<String, NoMemory>
    ensures { IfOk result (λ text. string_bytes text ≡ stopped_text kind.now place) }
{
    let mut text = String::new(alloc);
    let line = place.line;
    let column = place.column;
    writeln!(text, "{kind} at {line}:{column}")?;
    Ok(text)
}

/// The line for a run that has no step left.
fn steps_out_line(alloc: Global) -> Result<String, NoMemory>
    ensures { IfOk result (λ text. string_bytes text ≡ steps_out_text) }
{
    let text = String::from_str(alloc, "steps out\n")?;
    Ok(text)
}

/// Says why a run stops before its end.
fn reply_to_stop(alloc: Global, stop: Stop) -> Reply
    ensures { Says (stop_status stop) (stop_text stop) result }
{
    match stop {
        Stop::Null(place) => said(stopped_line(alloc, "null", place), Status::Null),
        Stop::AssertFailed(place) => said(stopped_line(alloc, "assert", place), Status::Assert),
        Stop::NoObject(place) => said(stopped_line(alloc, "no object", place), Status::NoObject),
        Stop::StepsOut => said(steps_out_line(alloc), Status::StepsOut),
        Stop::Overflow(place) => said(stopped_line(alloc, "overflow", place), Status::Overflow),
        Stop::Memory => Reply::NoMemory,
    }
}

/// The line for a heap text with a line that has no form or stands out of order.
fn bad_line(alloc: Global, line: u32) -> Result<String, NoMemory>
    ensures { IfOk result (λ text. string_bytes text ≡ bad_line_text line) }
{
    let mut text = String::new(alloc);
    writeln!(text, "heap 9 line {line}")?;
    Ok(text)
}

/// The line for a heap text with a line that breaks a rule.
fn ill_line(alloc: Global, line: u32, rule: u8) -> Result<String, NoMemory>
    ensures { IfOk result (λ text. string_bytes text ≡ ill_line_text line rule) }
{
    let mut text = String::new(alloc);
    writeln!(text, "heap 10 line {line} rule {rule}")?;
    Ok(text)
}

/// Says why a text is no heap.
fn reply_to_heap_error(alloc: Global, error: HeapError) -> Reply
    ensures { Says (heap_status error) (heap_text error) result }
{
    match error {
        HeapError::BadLine(line) => said(bad_line(alloc, line), Status::Heap),
        HeapError::NotWellFormed { line, rule } => said(ill_line(alloc, line, rule), Status::Heap),
        HeapError::Memory => Reply::NoMemory,
    }
}

/// The page that says what may be asked for.
fn page_alone(alloc: Global) -> Reply
    ensures { IsPageReply result }
{
    match String::from_str(alloc, page()) {
        Ok(text) => Reply::Usage(Text::of(text)),
        Err(_) => Reply::NoMemory,
    }
}

/// Says why a run doesn't return.
fn reply_to_unreturned(alloc: Global, unreturned: Unreturned) -> Reply
    ensures { IsUnreturnedReply unreturned result }
{
    match unreturned {
        Unreturned::NoMethod => page_alone(alloc),
        Unreturned::NoHeap(error) => reply_to_heap_error(alloc, error),
        Unreturned::Stopped(stop) => reply_to_stop(alloc, stop),
        Unreturned::Memory => Reply::NoMemory,
    }
}

/// What a run of a method of a program comes to, from a heap text.
fn reply_to_text(alloc: Global, source: Unfolded, run: &Run<'_>, text: &[u8]) -> Reply
    requires { length text.now + 1 < 2 ^ 32 }
    ensures { FitsOutcome (program_tree source.program) (run_in run.now) text.now result }
{
    match run_method(alloc, source, run.class, run.method, text, run.steps) {
        Ok(printed) => Reply::Ran(printed),
        Err(unreturned) => reply_to_unreturned(alloc, unreturned),
    }
}

/// What it comes to from the heap of a file.
fn run_heap<F: Files>(alloc: Global, source: Unfolded, run: &Run<'_>, files: &mut F) -> Reply
    ensures fits { FitsHeap (files_seen (F.holds files.old) (F.faults files.old) (F.faults files.new)) (program_tree source.program) (run_in run.now) result }
    ensures held { (name : List ℕ) → F.holds files.new name ≡ F.holds files.old name }
{
    match files.get(alloc, run.heap, SOURCE_LIMIT) {
        Ok(text) => reply_to_text(alloc, source, run, text.as_slice()),
        Err(fault) => reply_to_fault(alloc, run.heap, fault),
    }
}

/// Says that a program has no such method.
fn reply_to_no_method(alloc: Global, run: &Run<'_>) -> Reply
    ensures { IsUsageReply result }
{
    match no_method(alloc, run.file, run.class, run.method) {
        Ok(text) => Reply::Usage(text),
        Err(NoMemory) => Reply::NoMemory,
    }
}

/// What a run in a program comes to, where the program has the method.
fn run_program<F: Files>(alloc: Global, source: Unfolded, run: &Run<'_>, files: &mut F) -> Reply
    ensures fits { FitsMethod (files_seen (F.holds files.old) (F.faults files.old) (F.faults files.new)) (program_tree source.program) (run_in run.now) result }
    ensures held { (name : List ℕ) → F.holds files.new name ≡ F.holds files.old name }
{
    match has_method(alloc, source.typed().program(), run.class, run.method) {
        Ok(true) => run_heap(alloc, source, run, files),
        Ok(false) => reply_to_no_method(alloc, run),
        Err(NoMemory) => Reply::NoMemory,
    }
}

/// What a run in the bytes of a source comes to.
fn run_bytes<F: Files>(alloc: Global, bytes: &[u8], run: &Run<'_>, files: &mut F) -> Reply
    requires { length bytes.now < 2 ^ 32 - 1 }
    ensures fits { FitsSource (files_seen (F.holds files.old) (F.faults files.old) (F.faults files.new)) (run_in run.now) bytes.now result }
    ensures held { (name : List ℕ) → F.holds files.new name ≡ F.holds files.old name }
{
    match read(alloc, bytes) {
        Ok(source) => run_program(alloc, source, run, files),
        Err(refusal) => reply_to_refusal(alloc, refusal),
    }
}

/// What `run` comes to.
pub fn run_file<F: Files>(alloc: Global, run: &Run<'_>, files: &mut F) -> Reply
    ensures fits { FitsRun (files_seen (F.holds files.old) (F.faults files.old) (F.faults files.new)) (run_in run.now) result }
    ensures held { (name : List ℕ) → F.holds files.new name ≡ F.holds files.old name }
{
    match files.get(alloc, run.file, SOURCE_LIMIT) {
        Ok(bytes) => run_bytes(alloc, bytes.as_slice(), run, files),
        Err(fault) => reply_to_fault(alloc, run.file, fault),
    }
}
