//! Goes through the files and the writers of the host, of which no clause tells what they read and write, and
//! through the sinks in memory. Prints each case with what came of it.

use crate::writer::ShortWriter;
use jh_files::{FileFault, Files, HostFiles, HostSink, SureFiles, SureSink, put_all};
use std::alloc::Global;
use std::io::Print;
use std::str;

/// A read of a file of the host: the name, and how many bytes are wanted at most.
#[derive(Clone, Copy)]
struct Read {
    name: &'static str,
    most: u64,
}

static READS: &[Read] = &[
    Read {
        name: "eleven.j",
        most: 11,
    },
    Read {
        name: "eleven.j",
        most: 10,
    },
    Read {
        name: "eleven.j",
        most: 0,
    },
    Read {
        name: "gone.j",
        most: 11,
    },
    Read {
        name: "eleven.j",
        most: 1_000_000,
    },
    Read {
        name: ".",
        most: 11,
    },
];

/// A text put into a sink over a writer that takes so many bytes at a call and fails at a call.
#[derive(Clone, Copy)]
struct Put {
    text: &'static str,
    each: usize,
    failing: u64,
}

static PUTS: &[Put] = &[
    Put {
        text: "accepted: methods 0",
        each: 64,
        failing: 0,
    },
    Put {
        text: "accepted: methods 0",
        each: 3,
        failing: 0,
    },
    Put {
        text: "accepted: methods 0",
        each: 3,
        failing: 3,
    },
    Put {
        text: "accepted: methods 0",
        each: 3,
        failing: 8,
    },
    Put {
        text: "accepted: methods 0",
        each: 0,
        failing: 0,
    },
    Put {
        text: "",
        each: 3,
        failing: 1,
    },
];

/// Bytes as a text to print.
fn shown(bytes: &[u8]) -> &str {
    str::from_utf8(bytes).unwrap_or("(no UTF-8)")
}

/// What came of a read, in a word or as the bytes.
fn outcome(got: &Result<Vec<u8>, FileFault>) -> &str {
    match got {
        Ok(bytes) => shown(bytes.as_slice()),
        Err(FileFault::Failed) => "failed",
        Err(FileFault::TooLong { .. }) => "too long",
        Err(FileFault::Memory) => "no memory",
    }
}

fn word(done: bool) -> &'static str {
    if done { "written" } else { "failed" }
}

/// Reads files of the host, one after another through one value.
fn read_all(rt: &(impl Print + std::rt::Files), alloc: Global) -> anyhow::Result<()> {
    let mut files = HostFiles { rt, failed: 0 };
    for read in READS {
        if read.most < u64::MAX {
            let got = files.get(alloc, read.name, read.most);
            let failed = files.failed;
            println!(rt;
                "{} within {}: {}, failed {failed}",
                read.name,
                read.most,
                outcome(&got)
            )?;
        }
    }
    Ok(())
}

/// Puts a text into a sink over a writer, and prints what the writer has.
fn put_to_writer(rt: &impl Print, alloc: Global, put: &Put) -> anyhow::Result<()> {
    let mut sink = HostSink {
        inner: ShortWriter {
            taken: Vec::new(alloc),
            each: put.each,
            failing: put.failing,
            calls: 0,
        },
        failed: 0,
    };
    let done = put_all(&mut sink, put.text.as_bytes()).is_ok();
    let taken = shown(sink.inner.taken.as_slice());
    println!(rt;
        "{:?} by {}, failing at {}: {}, {taken:?}, failed {}",
        put.text,
        put.each,
        put.failing,
        word(done),
        sink.failed
    )?;
    Ok(())
}

/// Puts a text into a sink in memory that never fails, and prints what it keeps.
fn put_to_memory(rt: &impl Print, alloc: Global, text: &str) -> anyhow::Result<()> {
    let mut sink = SureSink::of(alloc, 6, 4)?;
    let done = put_all(&mut sink, text.as_bytes()).is_ok();
    let kept = shown(sink.written());
    println!(rt; "{text:?} into room for 6: {}, {kept:?}", word(done))?;
    Ok(())
}

/// Reads a name from files in memory that hold one, `a.j`, and never fail.
fn read_memory(rt: &impl Print, alloc: Global, name: &str) -> anyhow::Result<()> {
    let mut held = Vec::new(alloc);
    let bytes = b"class A { }".to_vec(alloc)?;
    held.push((String::from_str(alloc, "a.j")?, bytes))?;
    let got = SureFiles::of(held).get(alloc, name, 11);
    println!(rt; "{name} in memory within 11: {:?}", outcome(&got))?;
    Ok(())
}

/// Goes through all reads and all puts.
pub fn show_all(rt: &HostRuntime) -> anyhow::Result<()> {
    let alloc = rt.alloc();
    read_all(rt, alloc)?;
    for put in PUTS {
        put_to_writer(rt, alloc, put)?;
    }
    for text in ["", "accept", "accepted"] {
        put_to_memory(rt, alloc, text)?;
    }
    for name in ["a.j", "b.j"] {
        read_memory(rt, alloc, name)?;
    }
    Ok(())
}
