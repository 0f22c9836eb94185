//! Goes through the cases of the tool, over files and sinks in memory, and through what the libraries below it make
//! of command lines and of numbers. Prints where one comes to something else than it is to, the page that says what
//! may be asked for, how many there were of each kind, and then what the files and the writers of the host do; ends
//! with status 1 where one differs, and with 6 where a file of cases can't be read.
#![tactic(auto)]

mod asking;
mod case;
mod host;
mod jobs;
mod making;
mod reading;
mod running;
mod writer;

use asking::{Asked, go_through_lines};
use case::Case;
use host::show_all;
use jh_words::page;
use reading::cases_of;
use running::{Outcome, call};
use std::alloc::Global;
use std::io::Print;
use std::process::ExitCode;
use std::{fs, io, str};

/// The files of cases, by what they are about.
const FILES: [&str; 10] = [
    "statics.cases",
    "refusals.cases",
    "types.cases",
    "methods.cases",
    "queries.cases",
    "runs.cases",
    "heaps.cases",
    "made.cases",
    "documents.cases",
    "gallery.cases",
];

/// How many cases there were, and how many of them differed.
#[derive(Clone, Copy)]
struct Count {
    all: u64,
    differing: u64,
}

/// Bytes as a text to print.
fn shown(bytes: &[u8]) -> &str {
    str::from_utf8(bytes).unwrap_or("(no UTF-8)\n")
}

/// Whether a sink has what it is to have. Prints where it hasn't.
fn is_text(rt: &impl Print, sink: &str, has: &[u8], wanted: &[u8]) -> io::Result<bool> {
    let same = has == wanted;
    if !same {
        println!(rt; "{sink} has\n{}instead of\n{}", shown(has), shown(wanted))?;
    }
    Ok(same)
}

/// Whether a call came to what the case says. Prints where it didn't.
fn is_as_wanted(rt: &impl Print, case: &Case, outcome: &Outcome) -> io::Result<bool> {
    let out = is_text(
        rt,
        "the first sink",
        outcome.out.written(),
        case.out.as_slice(),
    )?;
    let err = is_text(
        rt,
        "the second sink",
        outcome.err.written(),
        case.err.as_slice(),
    )?;
    let status = outcome.status as u64 == case.status;
    if !status {
        println!(rt; "status {} instead of {}", outcome.status, case.status)?;
    }
    if case.unread > 0 {
        println!(rt; "{} lines say nothing", case.unread)?;
    }
    Ok(out && err && status && case.unread == 0)
}

/// Goes through a case, and answers whether it differs. Prints its name where it does.
fn differs(rt: &impl Print, alloc: Global, case: &mut Case) -> io::Result<bool> {
    let outcome = match call(alloc, case) {
        Ok(outcome) => outcome,
        Err(_) => return Err(io::Error::from(io::ErrorKind::OutOfMemory)),
    };
    let differs = !is_as_wanted(rt, case, &outcome)?;
    if differs {
        println!(rt; "in the case of {}", case.name)?;
    }
    Ok(differs)
}

/// Goes through cases, and counts them.
fn go_through(
    rt: &impl Print,
    alloc: Global,
    cases: &mut [Case],
    count: &mut Count,
) -> io::Result<()> {
    for case in cases {
        count.all = count.all.saturating_add(1);
        if differs(rt, alloc, case)? {
            count.differing = count.differing.saturating_add(1);
        }
    }
    Ok(())
}

/// Goes through the cases of a file, and counts them.
fn go_through_file(rt: &HostRuntime, name: &str, count: &mut Count) -> io::Result<()> {
    let alloc = rt.alloc();
    let text = fs::read_to_string(rt, name)?;
    let mut cases = cases_of(alloc, text.as_str())?;
    go_through(rt, alloc, cases.as_mut_slice(), count)
}

/// Goes through the lines of a file, each with what is to be made of it, and answers whether none differs. Prints how many there
/// were, by what they are.
fn are_lines_well(rt: &HostRuntime, asked: Asked, name: &str, what: &str) -> io::Result<bool> {
    let text = fs::read_to_string(rt, name)?;
    let mut count = Count {
        all: 0,
        differing: 0,
    };
    go_through_lines(rt, rt.alloc(), asked, text.as_str(), &mut count)?;
    println!(rt; "{} {what}, {} of them differ", count.all, count.differing)?;
    Ok(count.differing == 0)
}

/// Goes through all files of cases, and answers whether no case differs. Prints how many there were.
fn are_cases_well(rt: &HostRuntime) -> io::Result<bool> {
    let mut count = Count {
        all: 0,
        differing: 0,
    };
    for name in FILES {
        go_through_file(rt, name, &mut count)?;
    }
    println!(rt; "{} cases, {} of them differ", count.all, count.differing)?;
    Ok(count.differing == 0)
}

/// Goes through all cases and lines, and answers whether none differs.
fn are_all_well(rt: &HostRuntime) -> io::Result<bool> {
    let cases = are_cases_well(rt)?;
    print!(rt; "{}", page())?;
    let jobs = are_lines_well(rt, Asked::Job, "words.cases", "command lines")?;
    let texts = are_lines_well(rt, Asked::Text, "texts.cases", "texts")?;
    Ok(cases && jobs && texts)
}

/// Goes through all cases and lines, and shows what the host does. Answers whether none differs.
fn is_all_well(rt: &HostRuntime) -> anyhow::Result<bool> {
    let well = are_all_well(rt)?;
    show_all(rt)?;
    Ok(well)
}

fn main(rt: HostRuntime) -> ExitCode {
    match is_all_well(&rt) {
        Ok(true) => ExitCode::from(0),
        Ok(false) => ExitCode::from(1),
        Err(_) => ExitCode::from(6),
    }
}
