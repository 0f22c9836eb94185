#![tactic(auto, using(crate::proofs::commands::SideSteps::side_steps, jh_arena::proofs::table::Listed::growth_steps))]

ghost use Rattle.std.specs.Prelude.{◌≡◌, ◌∷◌, [], List, true, IfOk, OnOk, Some, codes, slice_get};
ghost use Rattle.jh_form.specs.Tree.{FormulaTree, of_truth};
ghost use Rattle.jh_form.specs.Tree as t;
ghost use Rattle.jh_arena.specs.table.Entries.{Listing, is_truth};
ghost use Rattle.jh_arena.specs.table.Growth.{Extends};
ghost use Rattle.jh_arena.specs.table.Nodes.{nodes};
ghost use Rattle.jh_wp.specs.Command.{CommandTree};
ghost use Rattle.jh_wp.specs.Command as w;
ghost use Rattle.jh_guard.specs.Steps as steps;
ghost use Rattle.jh_state_facts.specs.changes.Added.{AddsCommands};
ghost use Rattle.jh_method_commands.specs.commands.Sides.{IsCommand};

use jh_arena::makers::negation;
use jh_arena::table::Table;
use jh_call_commands::jh_command_statements::checks::{assume_named, named_fact};
use jh_call_commands::jh_command_terms::command::Command;
use jh_name::{NoMemory, Place, Row};
use std::alloc::Global;

/// One side of a branch or a loop: its command, and the turn that is free behind it.
#[derive(Drop)]
pub(crate) struct Side {
    pub(crate) command: Command,
    pub(crate) next: u32,
}

/// The commands of a side so far: the formula of its test is a fact.
pub(crate) fn entered(
    table: &mut Table,
    place: Place,
    test: usize,
) -> Result<Vec<Command>, NoMemory>
    requires { is_truth (slice_get (nodes table.old) test) ≡ true }
    ensures commands { IfOk result (λ made. (f : FormulaTree) → slice_get (nodes table.old) test ≡ Some (of_truth f) → AddsCommands table.new [] made.items (steps.assume_named (codes "cond") place f ∷ [])) }
    ensures grows { Extends table.old table.new }
{
    let mut made = Vec::new(table.alloc());
    assume_named(table, &mut made, "cond", place, test)?;
    Ok(made)
}

/// The commands of the other side so far: the opposite is a fact.
pub(crate) fn passed_by(
    table: &mut Table,
    place: Place,
    test: usize,
) -> Result<Vec<Command>, NoMemory>
    requires { is_truth (slice_get (nodes table.old) test) ≡ true }
    ensures commands { IfOk result (λ made. (f : FormulaTree) → slice_get (nodes table.old) test ≡ Some (of_truth f) → AddsCommands table.new [] made.items (steps.assume_named (codes "cond") place (t.negation f) ∷ [])) }
    ensures grows { Extends table.old table.new }
{
    let opposite = negation(table, test)?;
    entered(table, place, opposite)
}

/// The command of the end of a loop: the opposite of its test is a fact.
pub(crate) fn left(table: &mut Table, place: Place, test: usize) -> Result<Command, NoMemory>
    requires { is_truth (slice_get (nodes table.old) test) ≡ true }
    ensures command { IfOk result (λ made. (f : FormulaTree) → slice_get (nodes table.old) test ≡ Some (of_truth f) → IsCommand table.new made (steps.assume_named (codes "cond") place (t.negation f))) }
    ensures grows { Extends table.old table.new }
{
    let opposite = negation(table, test)?;
    let fact = named_fact(table, "cond", place, opposite)?;
    Ok(Command::Assume(fact))
}

/// Commands one after another, as one.
pub(crate) fn sequence(commands: Vec<Command>) -> Command
    ensures { (t : Listing) (fs : List CommandTree) → AddsCommands t [] commands.items fs → IsCommand t result (steps.sequence fs) }
{
    Command::Seq(Row::of(commands))
}

/// Adds a choice of two commands.
pub(crate) fn push_choice(
    alloc: Global,
    commands: &mut Vec<Command>,
    first: Command,
    second: Command,
) -> Result<(), NoMemory>
    ensures { OnOk result ((t : Listing) (a b : CommandTree) → IsCommand t first a → IsCommand t second b → AddsCommands t commands.old.items commands.new.items (w.choice a b ∷ [])) }
{
    let first = Box::new(alloc, first)?;
    let second = Box::new(alloc, second)?;
    commands.push(Command::Choice(first, second))?;
    Ok(())
}

/// Adds that the method returns.
pub(crate) fn push_leave(commands: &mut Vec<Command>) -> Result<(), NoMemory>
    ensures { OnOk result ((t : Listing) → AddsCommands t commands.old.items commands.new.items (w.leave ∷ [])) }
{
    commands.push(Command::Leave)?;
    Ok(())
}
