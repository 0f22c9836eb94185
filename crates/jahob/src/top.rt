//! The top call: from the words of a command line to what is written and a status.
#![tactic(auto)]

ghost use Rattle.std.specs.Prelude.{◌≡◌, ◌≢◌, ◌⊎◌, ℕ, List, Some, map, string_bytes};
ghost use Rattle.jh_reply.specs.Causes.{Answered, Delivered, Exact, Fits, FitsWords, HaveNoFault, Takes, due, files_seen, no_memory, number_of, reply_due, sink_seen};
ghost use Rattle.jh_reply.specs.Made.{Sums};
ghost use Rattle.jh_reply.specs.Run.{Runs};
ghost use Rattle.jh_reply.specs.Verify.{Reports, Verifies};
ghost use Rattle.jh_words.specs.CommandLine.{Gen, Run, Verify, gen, job_of, run, verify};
ghost use Rattle.jh_words.specs.Usage.{IsRefusal};

use jh_files::{Files, Sink, put_all};
use jh_reply::jh_obligations::program_sequents::{owed_is_one, owed_is_sound, too_many_is_exact};
use jh_reply::jh_prove::prover::{provable_is_proved, proved_is_valid};
use jh_reply::{Reply, Status, run_file, spelled_source_is_accepted, sum_source, verify_file};
use jh_words::{Job, WordsError, read};
use std::alloc::Global;

/// Says that words ask for nothing.
fn reply_to_words(error: WordsError) -> Reply
    ensures { (ws : List (List ℕ)) → IsRefusal ws error → FitsWords ws result }
{
    match error {
        WordsError::Usage(text) => Reply::Usage(text),
        WordsError::Memory => Reply::NoMemory,
    }
}

/// What the words and the files that they name come to.
fn reply_to<F: Files>(alloc: Global, words: &[String], files: &mut F) -> Reply
    ensures fits { Fits (map (λ word. string_bytes word) words.now) (files_seen (F.holds files.old) (F.faults files.old) (F.faults files.new)) result }
    ensures held { (name : List ℕ) → F.holds files.new name ≡ F.holds files.old name }
{
    match read(alloc, words) {
        Ok(Job::Verify(verify)) => verify_file(alloc, verify.file, verify.options, files),
        Ok(Job::Run(run)) => run_file(alloc, &run, files),
        Ok(Job::Gen(made)) => sum_source(alloc, made),
        Err(error) => reply_to_words(error),
    }
}

/// Writes a text, and answers the number of the status that is due with it, or that of a sink that fails.
fn written<S: Sink>(sink: &mut S, text: &[u8], status: Status) -> u8
    ensures { Takes (sink_seen (S.written sink.old) (S.written sink.new) (S.faults sink.old) (S.faults sink.new)) text.now (number_of status) result }
{
    match put_all(sink, text) {
        Ok(()) => status.number(),
        Err(_) => Status::Sink.number(),
    }
}

/// Writes what is due for a reply, and answers the status.
fn deliver<O: Sink, E: Sink>(reply: &Reply, out: &mut O, err: &mut E) -> u8
    ensures { Delivered (reply_due reply.now)
        (sink_seen (O.written out.old) (O.written out.new) (O.faults out.old) (O.faults out.new))
        (sink_seen (E.written err.old) (E.written err.new) (E.faults err.old) (E.faults err.new))
        result }
{
    if reply.is_on_out() {
        written(out, reply.text(), reply.status())
    } else {
        written(err, reply.text(), reply.status())
    }
}

/// Says that memory ran out before there were words, and answers the exit status: 6, or 5 where that can't be written.
pub fn say_no_memory<O: Sink, E: Sink>(out: &mut O, err: &mut E) -> u8
    ensures { Delivered (due no_memory)
        (sink_seen (O.written out.old) (O.written out.new) (O.faults out.old) (O.faults out.new))
        (sink_seen (E.written err.old) (E.written err.new) (E.faults err.old) (E.faults err.new))
        result }
{
    deliver(&Reply::NoMemory, out, err)
}

/// Does what the words of a command line say, and answers the exit status: 0 accepted, or the run returned, 1 rejected, 2
/// usage, 3 the source is refused, 4 a file can't be read, 5 a sink failed, 6 memory ran out; of a run, 10 null was dereferenced, 11 an assert
/// failed, 12 no object was free, 13 no step was left, 14 a number left its integers, 15 the heap is refused.
///
/// Nothing is written before it is known what the answer is, and no memory is taken from then on.
pub fn jahob<F: Files, O: Sink, E: Sink>(
    alloc: Global,
    words: &[String],
    files: &mut F,
    out: &mut O,
    err: &mut E,
) -> u8
    // The headline: where `verify` ends with status 0, the bytes read spell one program, and it is sound.
    ensures headline { (v : Verify) → job_of (map (λ word. string_bytes word) words.now) ≡ Some (verify v) → result ≡ 0 → Verifies (map (λ word. string_bytes word) words.now) (F.holds files.old) }

    // Where it ends with status 0 or 1, the whole report was written, and no answer is Unproved just where it is 0; then the program that it reports on is sound.
    ensures report { (v : Verify) → job_of (map (λ word. string_bytes word) words.now) ≡ Some (verify v) → (result ≡ 0) ⊎ (result ≡ 1) → Reports (map (λ word. string_bytes word) words.now) (F.holds files.old) (O.written out.old) (O.written out.new) result }

    // Where `run` ends with status 0, the run of the method by the definition returns, and its result and the heap at its end were written whole.
    ensures returned { (r : Run) → job_of (map (λ word. string_bytes word) words.now) ≡ Some (run r) → result ≡ 0 → Runs (map (λ word. string_bytes word) words.now) (F.holds files.old) (O.written out.old) (O.written out.new) }

    // Where `gen` ends with status 0 or 1, the summary of right answers for what the source of the seed owes was written whole, and no answer is Unproved just where it is 0; then the program that the source spells is sound.
    ensures summed { (g : Gen) → job_of (map (λ word. string_bytes word) words.now) ≡ Some (gen g) → (result ≡ 0) ⊎ (result ≡ 1) → Sums (map (λ word. string_bytes word) words.now) (O.written out.old) (O.written out.new) result }

    // Each answer has its cause, and the text that is due with it was written whole, or a front of it by a sink that failed.
    ensures cause { Answered (map (λ word. string_bytes word) words.now)
        (files_seen (F.holds files.old) (F.faults files.old) (F.faults files.new))
        (sink_seen (O.written out.old) (O.written out.new) (O.faults out.old) (O.faults out.new))
        (sink_seen (E.written err.old) (E.written err.new) (E.faults err.old) (E.faults err.new))
        result }

    // The same from the conditions to the answers.
    ensures exact { Exact (map (λ word. string_bytes word) words.now) (files_seen (F.holds files.old) (F.faults files.old) (F.faults files.new)) result }

    // With any status but 5 no put failed, also none that was tried again with success.
    ensures faults { result ≢ 5 → HaveNoFault
        (sink_seen (O.written out.old) (O.written out.new) (O.faults out.old) (O.faults out.new))
        (sink_seen (E.written err.old) (E.written err.new) (E.faults err.old) (E.faults err.new)) }

    // Want of memory never follows a byte on the first sink, and what the files hold stays.
    ensures memory { result ≡ 6 → O.written out.new ≡ O.written out.old }
    ensures held { (name : List ℕ) → F.holds files.new name ≡ F.holds files.old name }
{
    spelled_source_is_accepted();
    owed_is_sound();
    owed_is_one();
    too_many_is_exact();
    proved_is_valid();
    provable_is_proved();
    let reply = reply_to(alloc, words, files);
    deliver(&reply, out, err)
}
