#![tactic(auto, using(jh_arena::proofs::table::Listed::growth_steps, crate::proofs::commands::EnterSteps::enter_steps, crate::proofs::commands::TreeSteps::tree_steps))]

ghost use Rattle.std.specs.Prelude.{map, IfOk};
ghost use Rattle.jh_form.specs.Bare.{formula_tree, value_tree};
ghost use Rattle.jh_arena.specs.table.Growth.{Extends};
ghost use Rattle.jh_wp.specs.Command as w;
ghost use Rattle.jh_boxed_commands.specs.commands.Trees.{command_tree, trees_of};
ghost use Rattle.jh_boxed_commands.specs.commands.Standing.{IsCommand};

use crate::commands::command::Command;
use crate::commands::levels::{MOST_NESTED, lower};
use jh_arena::table::Table;
use jh_command_terms::command::Command as NodeCommand;
use jh_form::{Formula, Value};
use jh_import::entering::{enter, enter_formula};
use jh_name::{Name, NoMemory, Row};

/// The command over nodes that is a boxed one. What the table held stays in its place, after any answer. The answer is
/// want of memory where commands nest deeper than MOST_NESTED, and where a formula nests deeper than MOST_LEVELS of the
/// table.
pub fn enter_command(table: &mut Table, command: &Command) -> Result<NodeCommand, NoMemory>
    ensures command { IfOk result (λ made. IsCommand table.new made (command_tree command.now)) }
    ensures grows { Extends table.old table.new }
{
    entered(table, command, MOST_NESTED)
}

/// What is assumed.
fn assumed(table: &mut Table, fact: &Formula) -> Result<NodeCommand, NoMemory>
    ensures command { IfOk result (λ made. IsCommand table.new made (w.assume (formula_tree fact.now))) }
    ensures grows { Extends table.old table.new }
{
    let fact = enter_formula(table, fact)?;
    Ok(NodeCommand::Assume(fact))
}

/// What is asserted.
fn asserted(table: &mut Table, fact: &Formula) -> Result<NodeCommand, NoMemory>
    ensures command { IfOk result (λ made. IsCommand table.new made (w.assert (formula_tree fact.now))) }
    ensures grows { Extends table.old table.new }
{
    let fact = enter_formula(table, fact)?;
    Ok(NodeCommand::Assert(fact))
}

/// What is assigned.
fn assigned(table: &mut Table, name: &Name, value: &Value) -> Result<NodeCommand, NoMemory>
    ensures command { IfOk result (λ made. IsCommand table.new made (w.assign name.now (value_tree value.now))) }
    ensures grows { Extends table.old table.new }
{
    let value = enter(table, value)?;
    let name = name.copy(table.alloc())?;
    Ok(NodeCommand::Assign(name, value))
}

/// What is chosen freely.
fn havocked(table: &Table, name: &Name, with: &Name) -> Result<NodeCommand, NoMemory>
    ensures { IfOk result (λ made. IsCommand table.now made (w.havoc name.now with.now)) }
{
    let name = name.copy(table.alloc())?;
    let with = with.copy(table.alloc())?;
    Ok(NodeCommand::Havoc(name, with))
}

/// The same for a command that nests at most `levels` deep.
#[cycle(entered)]
fn entered(table: &mut Table, command: &Command, levels: u32) -> Result<NodeCommand, NoMemory>
    ensures command { IfOk result (λ made. IsCommand table.new made (command_tree command.now)) }
    ensures grows { Extends table.old table.new }
{
    match command {
        Command::Assume(fact) => assumed(table, fact),
        Command::Assert(fact) => asserted(table, fact),
        Command::Assign(name, value) => assigned(table, name, value),
        Command::Havoc(name, with) => havocked(table, name, with),
        Command::Leave => Ok(NodeCommand::Leave),
        Command::Stop => Ok(NodeCommand::Stop),
        Command::Seq(steps) => entered_all(table, steps.items(), lower(levels)?),
        Command::Choice(left, right) => entered_both(table, left, right, lower(levels)?),
    }
}

/// The same for one command after another.
#[cycle(entered)]
fn entered_all(table: &mut Table, steps: &[Command], levels: u32) -> Result<NodeCommand, NoMemory>
    ensures command { IfOk result (λ made. IsCommand table.new made (w.seq (trees_of (map command_tree steps.now)))) }
    ensures grows { Extends table.old table.new }
{
    let mut made = Vec::new(table.alloc());
    for step in steps {
        let one = entered(table, step, levels)?;
        made.push(one)?;
    }
    Ok(NodeCommand::Seq(Row::of(made)))
}

/// The same for a choice of two commands.
#[cycle(entered)]
fn entered_both(
    table: &mut Table,
    left: &Command,
    right: &Command,
    levels: u32,
) -> Result<NodeCommand, NoMemory>
    ensures command { IfOk result (λ made. IsCommand table.new made (w.choice (command_tree left.now) (command_tree right.now))) }
    ensures grows { Extends table.old table.new }
{
    let left = entered(table, left, levels)?;
    let left = Box::new(table.alloc(), left)?;
    let right = entered(table, right, levels)?;
    let right = Box::new(table.alloc(), right)?;
    Ok(NodeCommand::Choice(left, right))
}
