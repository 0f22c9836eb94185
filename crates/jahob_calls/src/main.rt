//! Calls each public call of the library that may answer want of memory and that the tool itself doesn't go through, and
//! prints whether it answers otherwise. Ends with status 1 where one doesn't.
#![tactic(auto)]

mod commands;
mod formulas;
mod meanings;
mod nodes;
mod sequents;
mod sources;

use std::alloc::Global;
use std::io;
use std::io::Print;
use std::process::ExitCode;

/// A call by its name, and whether it answers otherwise than with want of memory.
#[derive(Clone, Copy)]
pub struct Called {
    pub name: &'static str,
    pub answers: bool,
}

impl Called {
    /// A call by its name, and whether it answers.
    pub fn of(name: &'static str, answers: bool) -> Called {
        Called { name, answers }
    }
}

/// Prints whether each of some calls answers, and answers whether all of them do.
fn do_all_answer(rt: &impl Print, calls: &[Called]) -> io::Result<bool> {
    let mut all = true;
    for call in calls {
        let word = if call.answers {
            "answers"
        } else {
            "wants memory"
        };
        println!(rt; "{} {word}", call.name)?;
        all = all && call.answers;
    }
    Ok(all)
}

/// Makes all calls, prints whether each answers, and answers whether all of them do.
fn is_all_well(rt: &impl Print, alloc: Global) -> io::Result<bool> {
    let formulas = do_all_answer(rt, &formulas::all_called(alloc))?;
    let nodes = do_all_answer(rt, &nodes::all_called(alloc))?;
    let meanings = do_all_answer(rt, &meanings::all_called(alloc))?;
    let commands = do_all_answer(rt, &commands::all_called(alloc))?;
    let sequents = do_all_answer(rt, &sequents::all_called(alloc))?;
    let sources = do_all_answer(rt, &sources::all_called(alloc))?;
    Ok(formulas && nodes && meanings && commands && sequents && sources)
}

fn main(rt: HostRuntime) -> ExitCode {
    match is_all_well(&rt, rt.alloc()) {
        Ok(true) => ExitCode::from(0),
        Ok(false) => ExitCode::from(1),
        Err(_) => ExitCode::from(6),
    }
}
