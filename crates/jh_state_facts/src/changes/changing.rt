#![tactic(auto, using(crate::proofs::changes::AddedSteps::added_steps, jh_arena::proofs::table::Listed::growth_steps))]

ghost use Rattle.std.specs.Prelude.{◌≡◌, ◌<◌, ◌∷◌, [], suc, length, Some, slice_get, IfOk, OnOk};
ghost use Rattle.jh_arena.specs.table.Growth.{Extends};
ghost use Rattle.jh_arena.specs.table.Nodes.{nodes};
ghost use Rattle.jh_command_terms.specs.jh_wp.Command as w;
ghost use Rattle.jh_semantics.specs.State.{named};
ghost use Rattle.jh_command_terms.specs.jh_guard.Items.{free_of};
ghost use Rattle.jh_command_terms.specs.jh_guard.Steps as steps;
ghost use Rattle.jh_state_facts.specs.changes.Added.{AddsCommands, sorted_in};

use crate::changes::names::SortedName;
use jh_arena::makers::{free_field, free_number, free_object, free_set, free_truth};
use jh_arena::table::Table;
use jh_command_terms::command::Command;
use jh_name::{NoMemory, Sort, name};

/// The node of the value of a name.
fn free_node(table: &mut Table, named: SortedName<'_>) -> Result<usize, NoMemory>
    ensures node { IfOk result (λ made. slice_get (nodes table.new) made ≡ Some (free_of named.entry.sort (record { text = named.entry.text.now; turn = 0 }))) }
    ensures grows { Extends table.old table.new }
{
    let plain = name(table.alloc(), named.text, 0)?;
    match named.sort {
        Sort::Obj => free_object(table, &plain),
        Sort::Int => free_number(table, &plain),
        Sort::Bool => free_truth(table, &plain),
        Sort::Set => free_set(table, &plain),
        Sort::Field => free_field(table, &plain),
    }
}

/// Adds that the copy of a name at a turn gets the name's value.
fn push_copy(
    table: &mut Table,
    commands: &mut Vec<Command>,
    named: SortedName<'_>,
    turn: u32,
) -> Result<(), NoMemory>
    ensures commands { OnOk result (AddsCommands table.new commands.old.items commands.new.items (w.assign (record { text = named.entry.text.now; turn = turn }) (free_of named.entry.sort (record { text = named.entry.text.now; turn = 0 })) ∷ [])) }
    ensures grows { Extends table.old table.new }
{
    let value = free_node(table, named)?;
    let copy = name(table.alloc(), named.text, turn)?;
    commands.push(Command::Assign(copy, value))?;
    Ok(())
}

/// Adds that a name gets the value of a fresh one.
fn push_havoc(
    table: &Table,
    commands: &mut Vec<Command>,
    text: &str,
    turn: u32,
) -> Result<(), NoMemory>
    ensures { OnOk result (AddsCommands table.now commands.old.items commands.new.items (w.havoc (named text.now) (steps.fresh text.now turn) ∷ [])) }
{
    let plain = name(table.alloc(), text, 0)?;
    let fresh = name(table.alloc(), text, turn)?;
    commands.push(Command::Havoc(plain, fresh))?;
    Ok(())
}

/// The name at a place.
fn name_at<'a>(names: &[SortedName<'a>], place: usize) -> SortedName<'a>
    requires { place < length names.now }
    ensures { slice_get names.now place ≡ Some result }
{
    names[place]
}

/// The next turn; the answer is want of memory where there is none.
fn next_turn(turn: u32) -> Result<u32, NoMemory>
    ensures { IfOk result (λ next. next ≡ suc turn) }
{
    match turn.checked_add(1) {
        Some(next) => Ok(next),
        None => Err(NoMemory),
    }
}

/// Adds that the copy of each name at a turn gets the name's value.
pub fn push_copies(
    table: &mut Table,
    commands: &mut Vec<Command>,
    names: &[SortedName<'_>],
    turn: u32,
) -> Result<(), NoMemory>
    ensures commands { OnOk result (AddsCommands table.new commands.old.items commands.new.items (steps.copies (sorted_in names.now) turn)) }
    ensures grows { Extends table.old table.new }
{
    for place in 0..names.len() {
        push_copy(table, commands, name_at(names, place), turn)?;
    }
    Ok(())
}

/// Adds that each name gets the value of a fresh one, each with a turn of its own, and answers the turn behind them.
fn push_havocs(
    table: &Table,
    commands: &mut Vec<Command>,
    names: &[SortedName<'_>],
    turn: u32,
) -> Result<u32, NoMemory>
    ensures commands { OnOk result (AddsCommands table.now commands.old.items commands.new.items (steps.havocs (sorted_in names.now) turn)) }
    ensures next { IfOk result (λ next. next ≡ steps.after_havocs (sorted_in names.now) turn) }
{
    let mut next = turn;
    for place in 0..names.len() {
        push_havoc(table, commands, name_at(names, place).text, next)?;
        next = next_turn(next)?;
    }
    Ok(next)
}

/// The turn behind the copies of names at a turn.
fn after_copies(names: &[SortedName<'_>], turn: u32) -> Result<u32, NoMemory>
    ensures { IfOk result (λ next. next ≡ steps.after_copies (sorted_in names.now) turn) }
{
    if names.is_empty() {
        return Ok(turn);
    }
    next_turn(turn)
}

/// Adds the copies of names at a turn, and then that each takes any value; answers the turn that is free behind them.
/// The answer is want of memory where there is no such turn.
pub fn push_changed(
    table: &mut Table,
    commands: &mut Vec<Command>,
    names: &[SortedName<'_>],
    turn: u32,
) -> Result<u32, NoMemory>
    ensures commands { OnOk result (AddsCommands table.new commands.old.items commands.new.items (steps.changed (sorted_in names.now) turn)) }
    ensures next { IfOk result (λ next. next ≡ steps.after_changed (sorted_in names.now) turn) }
    ensures grows { Extends table.old table.new }
{
    push_copies(table, commands, names, turn)?;
    let first = after_copies(names, turn)?;
    push_havocs(table, commands, names, first)
}
