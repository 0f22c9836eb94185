//! Going through lines, each with the text that a library below the tool is to make of it.

use crate::Count;
use crate::jobs::said_to;
use crate::making::text_of;
use jh_name::NoMemory;
use std::alloc::Global;
use std::io;
use std::io::Print;

/// What lines ask for.
#[derive(Clone, Copy)]
pub enum Asked {
    /// The job of a command line, or what is said of it.
    Job,
    /// A source or a summary that is made.
    Text,
}

/// What comes of a line.
fn answer(alloc: Global, asked: Asked, line: &str) -> Result<String, NoMemory> {
    match asked {
        Asked::Job => said_to(alloc, line),
        Asked::Text => text_of(alloc, line),
    }
}

/// Whether a text is the one that is wanted. Empty lines behind what is said of a command line count for nothing.
fn is_wanted(asked: Asked, text: &str, wanted: &str) -> bool {
    match asked {
        Asked::Job => text.trim_end() == wanted.trim_end(),
        Asked::Text => text == wanted,
    }
}

/// Goes through a case: a line, and then the text that is to come of it. Answers whether it differs, and prints where it does.
fn differs(rt: &impl Print, alloc: Global, asked: Asked, case: &str) -> io::Result<bool> {
    let (line, wanted) = case.split_once('\n').unwrap_or((case, ""));
    let text = match answer(alloc, asked, line) {
        Ok(text) => text,
        Err(NoMemory) => return Err(io::Error::from(io::ErrorKind::OutOfMemory)),
    };
    let differs = !is_wanted(asked, text.as_str(), wanted);
    if differs {
        println!(rt; "> {line}\n{text}")?;
    }
    Ok(differs)
}

/// Goes through the cases of a text, each of which begins with `> `, and counts them.
pub fn go_through_lines(
    rt: &impl Print,
    alloc: Global,
    asked: Asked,
    text: &str,
    count: &mut Count,
) -> io::Result<()> {
    for case in text.split("> ").skip(1) {
        count.all = count.all.saturating_add(1);
        if differs(rt, alloc, asked, case)? {
            count.differing = count.differing.saturating_add(1);
        }
    }
    Ok(())
}
