#![tactic(auto, using(crate::proofs::commands::BoxSteps::box_steps))]

ghost use Rattle.std.specs.Prelude.{◌≡◌, true, IfOk};
ghost use Rattle.jh_wp.specs.Command as w;
ghost use Rattle.jh_command_terms.specs.command.Code.{truth_at, is_truth_at, value_at, is_at, command_in, command_fits, list_in, list_fits};
ghost use Rattle.jh_boxed_commands.specs.commands.Trees.{command_tree};

use crate::commands::command::Command;
use crate::commands::levels::{MOST_NESTED, lower};
use jh_arena::table::Table;
use jh_command_terms::command::Command as NodeCommand;
use jh_export::{boxed_formula, value};
use jh_name::{Name, NoMemory, Row};

/// The boxed command that is one over nodes. The answer is want of memory where commands nest deeper than MOST_NESTED,
/// and where the tree of a node has more nodes or levels than `jh_export` makes.
pub fn boxed_command(table: &Table, command: &NodeCommand) -> Result<Command, NoMemory>
    requires { command_fits table.now command.now ≡ true }
    ensures { IfOk result (λ made. command_tree made ≡ command_in table.now command.now) }
{
    boxed(table, command, MOST_NESTED)
}

/// What is assumed.
fn assumed(table: &Table, fact: usize) -> Result<Command, NoMemory>
    requires { is_truth_at table.now fact ≡ true }
    ensures { IfOk result (λ made. command_tree made ≡ w.assume (truth_at table.now fact)) }
{
    let fact = boxed_formula(table, fact)?;
    Ok(Command::Assume(fact))
}

/// What is asserted.
fn asserted(table: &Table, fact: usize) -> Result<Command, NoMemory>
    requires { is_truth_at table.now fact ≡ true }
    ensures { IfOk result (λ made. command_tree made ≡ w.assert (truth_at table.now fact)) }
{
    let fact = boxed_formula(table, fact)?;
    Ok(Command::Assert(fact))
}

/// What is assigned.
fn assigned(table: &Table, name: &Name, node: usize) -> Result<Command, NoMemory>
    requires { is_at table.now node ≡ true }
    ensures { IfOk result (λ made. command_tree made ≡ w.assign name.now (value_at table.now node)) }
{
    let name = name.copy(table.alloc())?;
    let value = value(table, node)?;
    Ok(Command::Assign(name, value))
}

/// What is chosen freely.
fn havocked(table: &Table, name: &Name, with: &Name) -> Result<Command, NoMemory>
    ensures { IfOk result (λ made. command_tree made ≡ w.havoc name.now with.now) }
{
    let name = name.copy(table.alloc())?;
    let with = with.copy(table.alloc())?;
    Ok(Command::Havoc(name, with))
}

/// The same for a command that nests at most `levels` deep.
#[cycle(boxed)]
fn boxed(table: &Table, command: &NodeCommand, levels: u32) -> Result<Command, NoMemory>
    requires { command_fits table.now command.now ≡ true }
    ensures { IfOk result (λ made. command_tree made ≡ command_in table.now command.now) }
{
    match command {
        NodeCommand::Assume(fact) => assumed(table, *fact),
        NodeCommand::Assert(fact) => asserted(table, *fact),
        NodeCommand::Assign(name, value) => assigned(table, name, *value),
        NodeCommand::Havoc(name, with) => havocked(table, name, with),
        NodeCommand::Leave => Ok(Command::Leave),
        NodeCommand::Stop => Ok(Command::Stop),
        NodeCommand::Seq(steps) => boxed_all(table, steps.items(), lower(levels)?),
        NodeCommand::Choice(left, right) => boxed_both(table, left, right, lower(levels)?),
    }
}

/// The same for one command after another.
#[cycle(boxed)]
fn boxed_all(table: &Table, steps: &[NodeCommand], levels: u32) -> Result<Command, NoMemory>
    requires { list_fits table.now steps.now ≡ true }
    ensures { IfOk result (λ made. command_tree made ≡ w.seq (list_in table.now steps.now)) }
{
    let mut made = Vec::new(table.alloc());
    for step in steps {
        let one = boxed(table, step, levels)?;
        made.push(one)?;
    }
    Ok(Command::Seq(Row::of(made)))
}

/// The same for a choice of two commands.
#[cycle(boxed)]
fn boxed_both(
    table: &Table,
    left: &NodeCommand,
    right: &NodeCommand,
    levels: u32,
) -> Result<Command, NoMemory>
    requires left { command_fits table.now left.now ≡ true }
    requires right { command_fits table.now right.now ≡ true }
    ensures { IfOk result (λ made. command_tree made ≡ w.choice (command_in table.now left.now) (command_in table.now right.now)) }
{
    let left = boxed(table, left, levels)?;
    let left = Box::new(table.alloc(), left)?;
    let right = boxed(table, right, levels)?;
    let right = Box::new(table.alloc(), right)?;
    Ok(Command::Choice(left, right))
}
