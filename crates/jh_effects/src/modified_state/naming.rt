#![tactic(auto, using(crate::proofs::written_state::Adding::adds_steps))]

ghost use Rattle.std.specs.Prelude.{◌≡◌, ◌++◌, [], option_map, IfOk, OnOk};
ghost use Rattle.jh_ast.specs.Bare.{program_tree};
ghost use Rattle.jh_symbols.specs.scopes.Lookings.{declared_by};
ghost use Rattle.jh_definitions.specs.reads.Listed.{state_of, states_in};
ghost use Rattle.jh_vars.specs.Reading as reading;
ghost use Rattle.jh_vars.specs.States as states;
ghost use Rattle.jh_effects.specs.written_state.Methods.{Adds};
ghost use Rattle.jh_effects.specs.modified_state.Modifying as modifying;

use crate::written_state::{Flow, Given, Link, member_key};
use jh_ast::{Program, Word};
use jh_definitions::jh_resolution::own_name;
use jh_definitions::reads::Read;
use jh_name::{NoMemory, Text};
use jh_rules::StateEntry;
use jh_symbols::member_numbers::Numbers;
use jh_symbols::scopes::Lookups;
use jh_type::formula_kinds::state_named;
use std::alloc::Global;

/// Adds a piece of state, where there is one.
fn add_state(
    alloc: Global,
    made: &mut Vec<Read>,
    state: Option<StateEntry>,
    text: &str,
) -> Result<(), NoMemory>
    ensures { OnOk result (states_in made.new.items ≡ states_in made.old.items ++ reading.some_state (option_map (states.called text.now) state)) }
{
    match state {
        None => Ok(()),
        Some(entry) => {
            let own = Text::of(String::from_str(alloc, own_name(text))?);
            made.push(Read { entry, own })?;
            Ok(())
        }
    }
}

/// The state that some words name in a class.
pub fn states_named(
    alloc: Global,
    lookups: &Lookups,
    class: usize,
    words: &[Word],
) -> Result<Vec<Read>, NoMemory>
    ensures { IfOk result (λ made. states_in made.items ≡ reading.fields_read (declared_by lookups.now) class words.now) }
{
    let mut made = Vec::new(alloc);
    for word in words {
        let text = word.text.text();
        add_state(alloc, &mut made, state_named(lookups, class, text), text)?;
    }
    Ok(made)
}

/// Gives a thing a piece of state, unless that is a variable with a definition.
fn give_state(
    alloc: Global,
    flow: &mut Flow,
    program: &Program,
    of: usize,
    read: &Read,
) -> Result<(), NoMemory>
    ensures { OnOk result (Adds flow.old flow.new (modifying.given_state (program_tree program.now) of (state_of read.now)) []) }
{
    if read.entry.is_defined {
        return Ok(());
    }
    let what = member_key(alloc, program, read.entry.class, read.own.text())?;
    flow.given.push(Given { of, what })?;
    Ok(())
}

/// Links a thing with the definition of a variable: of every one that has a number, or of those that are said to be
/// defined.
fn link_state(
    flow: &mut Flow,
    numbers: &Numbers,
    every: bool,
    to: usize,
    read: &Read,
) -> Result<(), NoMemory>
    ensures { OnOk result (Adds flow.old flow.new [] (modifying.link_state numbers.now every to (state_of read.now))) }
{
    if !(every || read.entry.is_defined) {
        return Ok(());
    }
    match numbers.number(read.entry.class, read.own.text()) {
        None => Ok(()),
        Some(from) => {
            flow.links.push(Link { from, to })?;
            Ok(())
        }
    }
}

/// Gives and links what is read or named.
pub fn add_states(
    alloc: Global,
    flow: &mut Flow,
    program: &Program,
    numbers: &Numbers,
    every: bool,
    of: usize,
    states: &[Read],
) -> Result<(), NoMemory>
    ensures { OnOk result (Adds flow.old flow.new (modifying.given_states (program_tree program.now) of (states_in states.now)) (modifying.link_states numbers.now every of (states_in states.now))) }
{
    for state in states {
        give_state(alloc, flow, program, of, state)?;
        link_state(flow, numbers, every, of, state)?;
    }
    Ok(())
}
