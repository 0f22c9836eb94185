//! Going through a case: the call of the tool over files and sinks in memory.

use crate::case::{Case, Taking};
use jahob::jahob;
use jh_files::{MemFiles, MemSink};
use jh_name::NoMemory;
use std::alloc::Global;

/// What a call came to.
#[derive(Drop)]
pub struct Outcome {
    pub out: MemSink,
    pub err: MemSink,
    pub status: u8,
}

fn sink(alloc: Global, taking: &Taking) -> Result<MemSink, NoMemory> {
    let failing = taking.failing.to_vec(alloc)?;
    MemSink::of(alloc, taking.room, taking.each.max(1), failing)
}

/// Calls the tool as the case says. Takes its files, which it holds no longer.
pub fn call(alloc: Global, case: &mut Case) -> Result<Outcome, NoMemory> {
    let mut out = sink(alloc, &case.out_taking)?;
    let mut err = sink(alloc, &case.err_taking)?;
    let held = std::mem::replace(&mut case.files, Vec::new(alloc));
    let mut files = MemFiles::of(held, case.failing.to_vec(alloc)?);
    let words = case.words.as_slice();
    let status = jahob(alloc, words, &mut files, &mut out, &mut err);
    Ok(Outcome { out, err, status })
}
