//! What is said to words that ask for nothing: what is wrong with them, and what may be asked for.
#![tactic(auto)]

ghost use Rattle.std.specs.Prelude.{◌≡◌, string_bytes, IfOk};
ghost use Rattle.jh_words.specs.Usage.{IsUsage, usage_page};

use crate::command::{is_file, is_name};
use clap::error::ErrorKind;
use clap::{Arg, Command, Error};
use jh_arguments::{
    Given, Reader, Setting, cut_at_dot, methods_in, number_for, number_in, parts, setting_named,
};
use jh_name::{NoMemory, Text};
use std::alloc::{AllocError, Global};

/// The page that says what may be asked for.
#[tactic(auto, unfolding(crate::specs::Usage::usage_page))]
pub fn page() -> &'static str
    ensures { result.now ≡ usage_page }
{
    "Usage: jahob verify FILE [--workers n] [--rounds r] [--leaves k]
       jahob run FILE CLASS.METHOD HEAP [--steps n]
       jahob gen SEED METHODS

Commands:
  verify  Proves that each method of the program in FILE meets its
          specification, and says so for each thing that is to be proved
  run     Runs a method of the program in FILE from the heap in the file HEAP,
          and prints its result and the heap at the end
  gen     Makes a program with METHODS methods, 1 to 200, from the number SEED,
          of at most 18 digits, proves it, and says how much is proved and how

Options, anywhere behind the command, as --steps 5 or --steps=5:
  --workers n  How many proofs are sought at a time: 1 to 16 [default: 1]
  --rounds r   How often facts are put at objects: 1 to 4 [default: 1]
  --leaves k   How many branches a proof may have: 1 to 100000 [default: 5000]
  --steps n    How many steps a run may take: 0 to 1000000 [default: 10000]
  --           Ends the options: a word behind it may begin with -
The number of workers is read, and changes nothing yet.

Status: 0 all is proved, or the run returned; 1 not all is proved; 2 the words
ask for nothing, or there is no such method; 3 the program is refused; 4 a file
can't be read; 5 the output can't be written; 6 there is no memory. Of a run:
10 null dereferenced, 11 assert failed, 12 no free object, 13 no step left,
14 a number too great, 15 the heap is refused.

Example: jahob verify examples/swap.j
"
}

/// A word that has to stand behind a command.
fn word<'a>(alloc: Global, name: &'a str) -> Arg<'a> {
    Arg::new(alloc, name).required(true)
}

/// An option with its value.
fn option<'a>(alloc: Global, name: &'a str, value: &'a str) -> Arg<'a> {
    Arg::new(alloc, name).long(name).value_name(value)
}

fn verify_command<'a>(alloc: Global) -> Result<Command<'a>, AllocError> {
    Command::new(alloc, "verify")
        .arg(word(alloc, "FILE"))?
        .arg(option(alloc, "workers", "n"))?
        .arg(option(alloc, "rounds", "r"))?
        .arg(option(alloc, "leaves", "k"))
}

fn run_command<'a>(alloc: Global) -> Result<Command<'a>, AllocError> {
    Command::new(alloc, "run")
        .arg(word(alloc, "FILE"))?
        .arg(word(alloc, "CLASS.METHOD"))?
        .arg(word(alloc, "HEAP"))?
        .arg(option(alloc, "steps", "n"))
}

fn gen_command<'a>(alloc: Global) -> Result<Command<'a>, AllocError> {
    Command::new(alloc, "gen")
        .arg(word(alloc, "SEED"))?
        .arg(word(alloc, "METHODS"))
}

/// The program, without its commands.
fn program<'a>(alloc: Global) -> Command<'a> {
    Command::new(alloc, "jahob")
        .no_binary_name(true)
        .arg_required_else_help(true)
        .subcommand_required(true)
}

/// A program with a command more, where there was memory to make it.
fn with<'a>(
    program: Command<'a>,
    command: Result<Command<'a>, AllocError>,
) -> Result<Command<'a>, AllocError> {
    program.subcommand(command?)
}

/// The commands with the words and options of each, but for what a word or a number may be.
fn declared<'a>(alloc: Global) -> Result<Command<'a>, AllocError> {
    let declared = with(program(alloc), verify_command(alloc))?;
    let declared = with(declared, run_command(alloc))?;
    with(declared, gen_command(alloc))
}

/// What an error says before its own account of the usage.
fn cause(text: &str) -> &str {
    match text.split_once("\n\nUsage:") {
        Some((cause, _)) => cause,
        None => match text.split_once("\n\nFor more information") {
            Some((cause, _)) => cause,
            None => text,
        },
    }
}

/// Says an error, unless it is a call for help.
fn say_error(alloc: Global, text: &mut String, error: &Error) -> Result<(), NoMemory> {
    match error.kind() {
        ErrorKind::DisplayHelp | ErrorKind::DisplayHelpOnMissingArgumentOrSubcommand => Ok(()),
        ErrorKind::OutOfMemory => Err(NoMemory),
        _ => {
            let said = format!(in alloc; "{error}")?;
            write!(text, "{}\n\n", cause(said.as_str()))?;
            Ok(())
        }
    }
}

/// Says that a word isn't what has to stand at its place.
fn say_wrong(text: &mut String, word: &str, place: &str, wanted: &str) -> Result<(), NoMemory> {
    write!(
        text,
        "error: invalid value '{word}' for '{place}': {wanted}\n\n"
    )?;
    Ok(())
}

/// Says that a number may not be given for an option.
fn say_number(text: &mut String, value: &str, setting: &Setting) -> Result<(), NoMemory> {
    let name = setting.name;
    let least = setting.least;
    let most = setting.most;
    write!(
        text,
        "error: invalid value '{value}' for '--{name}': a number from {least} to {most} is wanted, of at most 18 digits\n\n"
    )?;
    Ok(())
}

/// Says the first number that may not be given for its option, and answers whether there is one.
fn say_numbers(text: &mut String, options: &[Given<'_>]) -> Result<bool, NoMemory> {
    for given in options.iter() {
        if let Some(setting) = setting_named(given.name) {
            if number_for(&setting, given.value).is_none() {
                say_number(text, given.value, &setting)?;
                return Ok(true);
            }
        }
    }
    Ok(false)
}

/// Says that a word may not be a file, where it may not.
fn say_file(text: &mut String, word: &str, place: &str) -> Result<(), NoMemory> {
    if is_file(word) {
        Ok(())
    } else {
        say_wrong(text, word, place, "the name of a file is wanted")
    }
}

/// Whether a word is two names with a dot between them.
fn is_method(word: &str) -> bool {
    match cut_at_dot(word) {
        Some((class, method)) => is_name(class) && is_name(method),
        None => false,
    }
}

/// Says the first word that isn't what has to stand at its place.
fn say_words(text: &mut String, words: &[&str]) -> Result<(), NoMemory> {
    match words {
        [file] => say_file(text, file, "<FILE>"),
        [file, ..] if !is_file(file) => say_file(text, file, "<FILE>"),
        [_, method, ..] if !is_method(method) => say_wrong(
            text,
            method,
            "<CLASS.METHOD>",
            "two names with a dot between them are wanted",
        ),
        [_, _, heap] => say_file(text, heap, "<HEAP>"),
        _ => Ok(()),
    }
}

/// Says the first of the numbers of `gen` that isn't one that may stand at its place.
fn say_seed_or_methods(text: &mut String, words: &[&str]) -> Result<(), NoMemory> {
    match words {
        [seed, ..] if number_in(seed).is_none() => {
            say_wrong(text, seed, "<SEED>", "a number of 1 to 18 digits is wanted")
        }
        [_, methods, ..] if methods_in(methods).is_none() => say_wrong(
            text,
            methods,
            "<METHODS>",
            "a number from 1 to 200 is wanted, of at most 18 digits",
        ),
        _ => Ok(()),
    }
}

/// Says what is wrong with the values among the words behind a command.
fn say_values(text: &mut String, command: &str, reader: &Reader<'_>) -> Result<(), NoMemory> {
    if say_numbers(text, reader.options.as_slice())? {
        return Ok(());
    }
    match command {
        "gen" => say_seed_or_methods(text, reader.words.as_slice()),
        _ => say_words(text, reader.words.as_slice()),
    }
}

/// Says that a hyphen stands alone, which `clap` takes for any other word.
fn say_hyphen(text: &mut String) -> Result<(), NoMemory> {
    text.push_str("error: unexpected argument '-' found\n\n")?;
    Ok(())
}

/// Says what is wrong with words whose values alone may be wrong.
fn say_wrong_values(alloc: Global, text: &mut String, words: &[String]) -> Result<(), NoMemory> {
    match words {
        [] => Ok(()),
        [command, rest @ ..] => match parts(alloc, rest)? {
            Some(reader) => say_values(text, command.as_str(), &reader),
            None => say_hyphen(text),
        },
    }
}

/// Says what is wrong with words, if anything is but a call for help.
fn say_cause(alloc: Global, text: &mut String, words: &[String]) -> Result<(), NoMemory> {
    match declared(alloc)?.try_get_matches_from(words) {
        Ok(_) => say_wrong_values(alloc, text, words),
        Err(error) => say_error(alloc, text, &error),
    }
}

/// What is wrong with words, and what may be asked for.
pub(crate) fn usage(alloc: Global, words: &[String]) -> Result<String, NoMemory>
    ensures { IfOk result (λ text. IsUsage (string_bytes text)) }
{
    let mut text = String::new(alloc);
    say_cause(alloc, &mut text, words)?;
    text.push_str(page())?;
    Ok(text)
}

/// That a program has no method of these names, and what may be asked for.
pub fn no_method(alloc: Global, file: &str, class: &str, name: &str) -> Result<Text, NoMemory>
    ensures { IfOk result IsUsage }
{
    let mut text = String::new(alloc);
    write!(text, "error: '{file}' has no method '{class}.{name}'\n\n")?;
    text.push_str(page())?;
    Ok(Text::of(text))
}
