#![tactic(auto, using(crate::proofs::commands::OutlinedSteps::outlined_steps, jh_arena::proofs::table::Listed::growth_steps))]

ghost use Rattle.std.specs.Prelude.{◌≡◌, IfOk, OnOk};
ghost use Rattle.jh_arena.specs.table.Growth.{Extends};
ghost use Rattle.jh_semantics.specs.typed_code.Statements.{call_in};
ghost use Rattle.jh_state_facts.specs.changes.Added.{AddsCommands};
ghost use Rattle.jh_method_commands.specs.environment.Outlines.{IsCallable, callee_of, source_of};
ghost use Rattle.jh_call_commands.specs.calls.Called as called;
ghost use Rattle.jh_method_commands.specs.commands.Made as made;

use crate::commands::forming::formed_node;
use crate::environment::{Callable, Outline};
use jh_arena::table::Table;
use jh_call_commands::calls::{Called, Surroundings};
use jh_call_commands::jh_command_terms::command::Command;
use jh_name::NoMemory;
use jh_semantics::typed_code::CallCode;
use jh_state_facts::well_formedness::Known;

/// Adds the commands of a call of a method that the program has, over the node of that the state is well formed.
fn push_known(
    table: &mut Table,
    commands: &mut Vec<Command>,
    outline: &Outline<'_>,
    this: Option<usize>,
    scope: &[Known<'_>],
    call: &CallCode,
    method: &Callable<'_>,
    turn: u32,
) -> Result<u32, NoMemory>
    requires outline { made.Outlined table.old outline.now }
    requires method { IsCallable outline.now method.now }
    requires called { callee_of method.now ≡ called.callee_of call.now }
    ensures commands { OnOk result (AddsCommands table.new commands.old.items commands.new.items (made.commands_of outline.now this scope.now (call_in (source_of outline.now) call.now) turn)) }
    ensures next { IfOk result (λ next. next ≡ made.turn_behind outline.now this scope.now (call_in (source_of outline.now) call.now) turn) }
    ensures grows { Extends table.old table.new }
{
    let formed = formed_node(table, outline, this, scope)?;
    let written = outline.written_names(table.alloc(), method)?;
    let sets = outline.written_sets(table.alloc(), method)?;
    let around = Surroundings {
        classes: outline.classes,
        members: outline.members,
        invariants: outline.invariants,
        formulas: outline.formulas,
    };
    let called = Called {
        method: method.code,
        written: written.as_slice(),
        sets: sets.as_slice(),
        framed: method.framed,
    };
    jh_call_commands::calls::push_call(table, commands, &around, call, &called, formed, turn)
}

/// Adds the commands of a call; of a method that the program hasn't there are none.
pub(crate) fn push_call(
    table: &mut Table,
    commands: &mut Vec<Command>,
    outline: &Outline<'_>,
    this: Option<usize>,
    scope: &[Known<'_>],
    call: &CallCode,
    turn: u32,
) -> Result<u32, NoMemory>
    requires { made.Outlined table.old outline.now }
    ensures commands { OnOk result (AddsCommands table.new commands.old.items commands.new.items (made.commands_of outline.now this scope.now (call_in (source_of outline.now) call.now) turn)) }
    ensures next { IfOk result (λ next. next ≡ made.turn_behind outline.now this scope.now (call_in (source_of outline.now) call.now) turn) }
    ensures grows { Extends table.old table.new }
{
    match outline.callable(call.class, call.method.text()) {
        None => Ok(turn),
        Some(method) => push_known(table, commands, outline, this, scope, call, &method, turn),
    }
}
