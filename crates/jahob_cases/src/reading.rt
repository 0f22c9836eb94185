//! Reading cases from a text. README.md says how they are written.

use crate::case::{Case, Part, Taking};
use jh_words::page;
use std::alloc::{AllocError, Global};

/// The words of a line; two single quotes are an empty word.
pub fn words_of(alloc: Global, line: &str) -> Result<Vec<String>, AllocError> {
    let mut words = Vec::new(alloc);
    for word in line.split(' ') {
        if word == "''" {
            words.push(String::new(alloc))?;
        } else if !word.is_empty() {
            words.push(String::from_str(alloc, word)?)?;
        }
    }
    Ok(words)
}

/// The numbers among the words of a line.
fn numbers_of(alloc: Global, line: &str) -> Result<Vec<u64>, AllocError> {
    let mut numbers = Vec::new(alloc);
    for word in line.split(' ') {
        if let Ok(number) = word.parse::<u64>() {
            numbers.push(number)?;
        }
    }
    Ok(numbers)
}

/// A number, or 0.
fn number_of(word: &str) -> u64 {
    word.parse::<u64>().unwrap_or(0)
}

/// A byte by its number, or 0.
fn byte_of(word: &str) -> u8 {
    word.parse::<u8>().unwrap_or(0)
}

/// A sink: its room, how much it takes at a put, and which puts fail.
fn taking_of(alloc: Global, line: &str) -> Result<Taking, AllocError> {
    let mut failing = numbers_of(alloc, line)?;
    let room = failing.first().copied().unwrap_or(0) as usize;
    let each = failing.get(1).copied().unwrap_or(1) as usize;
    failing.drain(..failing.len().min(2));
    Ok(Taking {
        room,
        each,
        failing,
    })
}

/// Reads how a sink takes what comes.
fn read_sink(alloc: Global, case: &mut Case, line: &str) -> Result<(), AllocError> {
    match line.split_once(' ') {
        Some(("out", rest)) => case.out_taking = taking_of(alloc, rest)?,
        Some(("err", rest)) => case.err_taking = taking_of(alloc, rest)?,
        _ => case.count_unread(),
    }
    Ok(())
}

/// Adds so many blanks to a text.
fn add_blanks(case: &mut Case, part: Part, count: u64) -> Result<(), AllocError> {
    for _ in 0..count {
        case.add(part, b" ")?;
    }
    Ok(())
}

/// Reads a line that says something of a case, and answers to which text the lines after it go.
fn read_mark(
    alloc: Global,
    case: &mut Case,
    part: Part,
    word: &str,
    rest: &str,
) -> Result<Part, AllocError> {
    match word {
        "words" => case.words = words_of(alloc, rest)?,
        "reads" => case.failing = numbers_of(alloc, rest)?,
        "sink" => read_sink(alloc, case, rest)?,
        "status" => {
            case.status = number_of(rest);
            return Ok(Part::Nothing);
        }
        "blanks" => add_blanks(case, part, number_of(rest))?,
        "byte" => case.add(part, &[byte_of(rest)])?,
        "chop" => case.chop(part),
        "usage" => case.add(part, page().as_bytes())?,
        "out" => return Ok(Part::Out),
        "err" => return Ok(Part::Err),
        "file" => {
            let name = String::from_str(alloc, rest)?;
            case.files.push((name, Vec::new(alloc)))?;
            return Ok(Part::File);
        }
        _ => case.count_unread(),
    }
    Ok(part)
}

/// Reads a line of a case, and answers to which text the lines after it go.
fn read_line(alloc: Global, case: &mut Case, part: Part, line: &str) -> Result<Part, AllocError> {
    match line.strip_prefix("-- ") {
        Some(mark) => {
            let (word, rest) = mark.split_once(' ').unwrap_or((mark, ""));
            read_mark(alloc, case, part, word, rest)
        }
        None => {
            case.add(part, line.as_bytes())?;
            case.add(part, b"\n")?;
            Ok(part)
        }
    }
}

/// A case with a name, under the words `verify a.j`.
fn new_case(alloc: Global, name: &str) -> Result<Case, AllocError> {
    let mut case = Case::of(alloc, name)?;
    case.words = words_of(alloc, "verify a.j")?;
    Ok(case)
}

/// The cases of a text.
pub fn cases_of(alloc: Global, text: &str) -> Result<Vec<Case>, AllocError> {
    let mut cases: Vec<Case> = Vec::new(alloc);
    let mut part = Part::Nothing;
    for line in text.lines() {
        if let Some(name) = line.strip_prefix("== ") {
            cases.push(new_case(alloc, name)?)?;
            part = Part::Nothing;
        } else if let Some(case) = cases.last_mut() {
            part = read_line(alloc, case, part, line)?;
        }
    }
    Ok(cases)
}
