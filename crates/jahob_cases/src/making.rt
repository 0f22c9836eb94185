//! Sources and summaries that `jh_gen` makes.

use jh_gen::{Counts, source_of, summary};
use jh_name::NoMemory;
use std::alloc::Global;
use std::str;

/// The number of a word, or 0 where there is none.
fn number(word: Option<&str>) -> u64 {
    match word {
        Some(word) => word.parse::<u64>().unwrap_or(0),
        None => 0,
    }
}

fn count(word: Option<&str>) -> usize {
    usize::try_from(number(word)).unwrap_or(0)
}

/// What a line asks for: `source SEED METHODS`, or `summary SEED METHODS` with six counts.
fn made(alloc: Global, line: &str) -> Result<Vec<u8>, NoMemory> {
    let mut words = line.split(' ');
    let kind = words.next().unwrap_or("");
    let seed = number(words.next());
    let methods = u32::try_from(number(words.next())).unwrap_or(0);
    if kind == "source" {
        return source_of(alloc, seed, methods);
    }
    let counts = Counts {
        methods: count(words.next()),
        sequents: count(words.next()),
        trivial: count(words.next()),
        bapa: count(words.next()),
        local: count(words.next()),
        unproved: count(words.next()),
    };
    summary(alloc, seed, methods, counts)
}

/// The text that a line asks for.
pub fn text_of(alloc: Global, line: &str) -> Result<String, NoMemory> {
    let bytes = made(alloc, line)?;
    let text = str::from_utf8(bytes.as_slice()).unwrap_or("(no UTF-8)");
    Ok(String::from_str(alloc, text)?)
}
