//! From what the words are made of to the job that they ask for.
#![tactic(auto)]

ghost use Rattle.std.specs.Prelude.{◌≡◌, List, map, option_map, option_and_then, string_bytes, IfOk};
ghost use Rattle.jh_words.specs.CommandLine as spec;
ghost use Rattle.jh_arguments.specs.Held.{given_in, parts_in};
ghost use Rattle.jh_words.specs.Held.{job_in};

use crate::job::{Gen, Job, Run, Verify};
use jh_arguments::{
    Given, Reader, are_options, cut_at_dot, leaves, methods_in, number_in, number_of, parts,
    rounds, steps, workers,
};
use jh_name::NoMemory;
use jh_name::options::Options;
use std::alloc::Global;

/// Whether a word may be a file.
pub(crate) fn is_file(word: &str) -> bool
    ensures { result ≡ spec.is_file word.now }
{
    !word.is_empty() && word != "-"
}

/// Whether a text has a dot.
fn has_dot(text: &[u8]) -> bool
    ensures { result ≡ spec.has_dot text.now }
{
    text.iter().any(|byte| *byte == b'.')
}

/// Whether a text may be a class or a method.
pub(crate) fn is_name(text: &str) -> bool
    ensures { result ≡ spec.is_name text.now }
{
    !text.is_empty() && !has_dot(text.as_bytes())
}

/// The report on a file by the options that are given.
fn verify_with<'a>(file: &'a str, options: &[Given<'a>]) -> Option<Job<'a>>
    ensures { option_map job_in result ≡ spec.verified file.now (spec.number_of spec.rounds (map given_in options.now)) (spec.number_of spec.leaves (map given_in options.now)) (spec.number_of spec.workers (map given_in options.now)) }
{
    let rounds = number_of(&rounds(), options);
    let leaves = number_of(&leaves(), options);
    let workers = number_of(&workers(), options);
    match (rounds, leaves, workers) {
        (Some(rounds), Some(leaves), Some(workers)) => Some(Job::Verify(Verify {
            file,
            options: Options {
                rounds: rounds as u32,
                leaves: leaves as u32,
            },
            workers: workers as usize,
        })),
        _ => None,
    }
}

/// The job of `verify FILE`.
fn verify_file<'a>(file: &'a str, options: &[Given<'a>]) -> Option<Job<'a>>
    ensures { option_map job_in result ≡ spec.verify_file file.now (map given_in options.now) }
{
    let names = ["workers", "rounds", "leaves"];
    if is_file(file) && are_options(names.as_slice(), options) {
        verify_with(file, options)
    } else {
        None
    }
}

/// The run of a method.
fn call<'a>(
    file: &'a str,
    class: &'a str,
    method: &'a str,
    heap: &'a str,
    steps: u64,
) -> Option<Job<'a>>
    ensures { option_map job_in result ≡ spec.called_by file.now class.now method.now heap.now steps }
{
    if is_name(class) && is_name(method) {
        Some(Job::Run(Run {
            file,
            class,
            method,
            heap,
            steps,
        }))
    } else {
        None
    }
}

/// The run of a method by the word for it and the options that are given.
fn run_with<'a>(
    file: &'a str,
    method: &'a str,
    heap: &'a str,
    options: &[Given<'a>],
) -> Option<Job<'a>>
    ensures { option_map job_in result ≡ spec.called file.now (spec.cut_at 46 method.now) heap.now (spec.number_of spec.steps (map given_in options.now)) }
{
    match (cut_at_dot(method), number_of(&steps(), options)) {
        (Some((class, method)), Some(steps)) => call(file, class, method, heap, steps),
        _ => None,
    }
}

/// The job of `run FILE CLASS.METHOD HEAP`.
fn run_method<'a>(
    file: &'a str,
    method: &'a str,
    heap: &'a str,
    options: &[Given<'a>],
) -> Option<Job<'a>>
    ensures { option_map job_in result ≡ spec.run_method file.now method.now heap.now (map given_in options.now) }
{
    let names = ["steps"];
    if is_file(file) && is_file(heap) && are_options(names.as_slice(), options) {
        run_with(file, method, heap, options)
    } else {
        None
    }
}

/// The source of a seed with so many methods.
fn generated<'a>(seed: &str, methods: &str) -> Option<Job<'a>>
    ensures { option_map job_in result ≡ spec.generated (spec.number_in seed.now) (spec.methods_in methods.now) }
{
    match (number_in(seed), methods_in(methods)) {
        (Some(seed), Some(methods)) => Some(Job::Gen(Gen {
            seed,
            methods: methods as u32,
        })),
        _ => None,
    }
}

/// The job of `gen SEED METHODS`, which has no options.
fn gen_source<'a>(seed: &str, methods: &str, options: &[Given<'a>]) -> Option<Job<'a>>
    ensures { option_map job_in result ≡ spec.gen_source seed.now methods.now (map given_in options.now) }
{
    match options {
        [] => generated(seed, methods),
        _ => None,
    }
}

/// The job of `verify` with these words behind it.
fn verify_job<'a>(words: &[&'a str], options: &[Given<'a>]) -> Option<Job<'a>>
    ensures { option_map job_in result ≡ spec.verify_job (map (λ word. word.now) words.now) (map given_in options.now) }
{
    match words {
        [file] => verify_file(file, options),
        _ => None,
    }
}

/// The job of `run` with these words behind it.
fn run_job<'a>(words: &[&'a str], options: &[Given<'a>]) -> Option<Job<'a>>
    ensures { option_map job_in result ≡ spec.run_job (map (λ word. word.now) words.now) (map given_in options.now) }
{
    match words {
        [file, method, heap] => run_method(file, method, heap, options),
        _ => None,
    }
}

/// The job of `gen` with these words behind it.
fn gen_job<'a>(words: &[&'a str], options: &[Given<'a>]) -> Option<Job<'a>>
    ensures { option_map job_in result ≡ spec.gen_job (map (λ word. word.now) words.now) (map given_in options.now) }
{
    match words {
        [seed, methods] => gen_source(seed, methods, options),
        _ => None,
    }
}

/// The job of a command, by what the words behind it are made of.
fn job_by<'a>(command: &str, reader: &Reader<'a>) -> Option<Job<'a>>
    ensures { option_map job_in result ≡ spec.job_by command.now (parts_in reader.now) }
{
    match command {
        "verify" => verify_job(reader.words.as_slice(), reader.options.as_slice()),
        "run" => run_job(reader.words.as_slice(), reader.options.as_slice()),
        "gen" => gen_job(reader.words.as_slice(), reader.options.as_slice()),
        _ => None,
    }
}

/// The job that the words of a command line ask for.
pub(crate) fn job_of<'a>(alloc: Global, words: &'a [String]) -> Result<Option<Job<'a>>, NoMemory>
    ensures { IfOk result (λ found. option_map job_in found ≡ spec.job_of (map (λ word. string_bytes word) words.now)) }
{
    match words {
        [] => Ok(None),
        [command, rest @ ..] => match parts(alloc, rest)? {
            None => Ok(None),
            Some(reader) => Ok(job_by(command.as_str(), &reader)),
        },
    }
}
