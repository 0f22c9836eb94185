#![tactic(auto, using(jh_arena::proofs::table::Listed::growth_steps, crate::proofs::conditions::EnteredSteps::entered_steps))]

ghost use Rattle.std.specs.Prelude.{IfOk};
ghost use Rattle.jh_form.specs.Bare.{formula_tree};
ghost use Rattle.jh_arena.specs.table.Growth.{Extends};
ghost use Rattle.jh_boxed_commands.specs.commands.Trees.{command_tree};
ghost use Rattle.jh_boxed_commands.specs.conditions.Entered.{IsEntered};

use crate::commands::{Command, enter_command};
use jh_arena::table::Table;
use jh_command_terms::command::Command as NodeCommand;
use jh_form::Formula;
use jh_import::entering::enter_formula;
use jh_name::NoMemory;

/// A command over nodes, with the nodes of what has to be true after it and where the method returns.
#[derive(Drop)]
pub(crate) struct Entered {
    pub(crate) command: NodeCommand,
    pub(crate) normal: usize,
    pub(crate) returned: usize,
}

/// A command and two formulas, entered into a table.
pub(crate) fn enter_parts(
    table: &mut Table,
    command: &Command,
    normal: &Formula,
    returned: &Formula,
) -> Result<Entered, NoMemory>
    ensures entered { IfOk result (IsEntered table.new (command_tree command.now) (formula_tree normal.now) (formula_tree returned.now)) }
    ensures grows { Extends table.old table.new }
{
    let normal = enter_formula(table, normal)?;
    let returned = enter_formula(table, returned)?;
    let command = enter_command(table, command)?;
    Ok(Entered {
        command,
        normal,
        returned,
    })
}
