#![tactic(auto, using(jh_state_facts::proofs::changes::AddedSteps::added_steps, jh_arena::proofs::table::Listed::growth_steps))]

ghost use Rattle.std.specs.Prelude.{◌≡◌, true, IfOk, OnOk, Some, slice_get};
ghost use Rattle.jh_ast.specs.Programs.{ProgramTree};
ghost use Rattle.jh_form.specs.Tree.{FormulaTree, of_truth};
ghost use Rattle.jh_arena.specs.table.Entries.{is_truth};
ghost use Rattle.jh_arena.specs.table.Growth.{Extends};
ghost use Rattle.jh_arena.specs.table.Nodes.{nodes};
ghost use Rattle.jh_semantics.specs.Program.{Program};
ghost use Rattle.jh_guard.specs.Writes.{Writes};
ghost use Rattle.jh_state_facts.specs.changes.Added.{AddsCommands};
ghost use Rattle.jh_call_commands.specs.calls.Called.{IsCalled, callee_of, turns_for, commands_for};

use crate::calls::after::push_after;
use crate::calls::before::push_before;
use crate::calls::called::{Called, Surroundings};
use crate::calls::turns::turns_of;
use jh_arena::table::Table;
use jh_command_terms::command::Command;
use jh_name::NoMemory;
use jh_semantics::typed_code::CallCode;

/// Adds the commands of a call, whose fresh names have turns from this one on, and answers the turn that is free behind
/// them. `well_formed` is the node of that the state is well formed where the call stands.
pub fn push_call(
    table: &mut Table,
    commands: &mut Vec<Command>,
    around: &Surroundings<'_>,
    call: &CallCode,
    called: &Called<'_>,
    well_formed: usize,
    turn: u32,
) -> Result<u32, NoMemory>
    requires { is_truth (slice_get (nodes table.old) well_formed) ≡ true }
    ensures commands { OnOk result ((p : ProgramTree) (g : Program) (ws : Writes) (wf : FormulaTree) → IsCalled p g ws (callee_of call.now) table.old around.now called.now → slice_get (nodes table.old) well_formed ≡ Some (of_truth wf) → AddsCommands table.new commands.old.items commands.new.items (commands_for p g ws wf call.now called.now turn)) }
    ensures next { IfOk result (λ next. (p : ProgramTree) (g : Program) (ws : Writes) → IsCalled p g ws (callee_of call.now) table.old around.now called.now → next ≡ (turns_for p g ws call.now called.now turn).next) }
    ensures grows { Extends table.old table.new }
{
    let turns = turns_of(call, called, turn)?;
    push_before(table, commands, around, call, called, &turns)?;
    push_after(table, commands, around, call, called, &turns, well_formed)?;
    Ok(turns.next)
}
