#![tactic(auto, using(crate::proofs::simple_statements::CheckedSteps::checked_steps, jh_arena::proofs::table::Listed::growth_steps))]

ghost use Rattle.std.specs.Prelude.{◌≡◌, ◌++◌, ◌∷◌, [], IfOk, OnOk, Some, option_map, slice_get};
ghost use Rattle.jh_arena.specs.table.Entries.{Listing};
ghost use Rattle.jh_arena.specs.table.Growth.{Extends};
ghost use Rattle.jh_arena.specs.table.Nodes.{nodes};
ghost use Rattle.jh_wp.specs.Command as w;
ghost use Rattle.jh_semantics.specs.State.{result_name};
ghost use Rattle.jh_guard.specs.Terms as terms;
ghost use Rattle.jh_guard.specs.Steps as steps;
ghost use Rattle.jh_semantics.specs.typed_code.Codes.{any_code};
ghost use Rattle.jh_semantics.specs.typed_code.Statements.{target_in};
ghost use Rattle.jh_command_terms.specs.terms.Checks.{IsReceiver};
ghost use Rattle.jh_state_facts.specs.changes.Added.{AddsCommands};
ghost use Rattle.jh_command_statements.specs.simple_statements.Returns.{return_commands};

use crate::checks::{assert_checks, assign_name, put};
use jh_arena::table::Table;
use jh_command_terms::command::Command;
use jh_command_terms::terms::{CheckNode, target_term, value_term};
use jh_name::NoMemory;
use jh_semantics::typed_code::{AnyCode, Target};

/// The nodes of the receiver of a target, where it is a field, and of a value.
#[derive(Clone, Copy)]
struct Assigned {
    receiver: Option<usize>,
    value: usize,
}

/// Adds the checks of a target and of a value.
fn push_both_checks(
    table: &mut Table,
    commands: &mut Vec<Command>,
    target: &Target,
    value: &AnyCode,
) -> Result<Assigned, NoMemory>
    ensures receiver { IfOk result (λ made. IsReceiver table.new made.receiver (target_in target.now)) }
    ensures value { IfOk result (λ made. slice_get (nodes table.new) made.value ≡ Some (terms.value_term (any_code value.now))) }
    ensures commands { OnOk result (AddsCommands table.new commands.old.items commands.new.items (steps.assert_checks (steps.target_checks (target_in target.now) ++ terms.value_checks (any_code value.now)))) }
    ensures grows { Extends table.old table.new }
{
    let mut checks: Vec<CheckNode> = Vec::new(table.alloc());
    let receiver = target_term(table, &mut checks, target)?;
    let value = value_term(table, &mut checks, value)?;
    assert_checks(table, commands, checks.as_slice())?;
    Ok(Assigned { receiver, value })
}

/// Adds an assignment: its checks, and that the value goes to the target.
pub fn push_assign(
    table: &mut Table,
    commands: &mut Vec<Command>,
    target: &Target,
    value: &AnyCode,
) -> Result<(), NoMemory>
    ensures commands { OnOk result (AddsCommands table.new commands.old.items commands.new.items (steps.assert_checks (steps.target_checks (target_in target.now) ++ terms.value_checks (any_code value.now)) ++ steps.put (target_in target.now) (terms.value_term (any_code value.now)))) }
    ensures grows { Extends table.old table.new }
{
    let assigned = push_both_checks(table, commands, target, value)?;
    put(table, commands, target, assigned.receiver, assigned.value)
}

/// Adds the checks of a value, and answers its node.
fn push_value(
    table: &mut Table,
    commands: &mut Vec<Command>,
    value: &AnyCode,
) -> Result<usize, NoMemory>
    ensures node { IfOk result (λ made. slice_get (nodes table.new) made ≡ Some (terms.value_term (any_code value.now))) }
    ensures commands { OnOk result (AddsCommands table.new commands.old.items commands.new.items (steps.assert_checks (terms.value_checks (any_code value.now)))) }
    ensures grows { Extends table.old table.new }
{
    let mut checks: Vec<CheckNode> = Vec::new(table.alloc());
    let made = value_term(table, &mut checks, value)?;
    assert_checks(table, commands, checks.as_slice())?;
    Ok(made)
}

/// Adds that the result is a value.
fn push_result(
    table: &mut Table,
    commands: &mut Vec<Command>,
    value: &AnyCode,
) -> Result<(), NoMemory>
    ensures commands { OnOk result (AddsCommands table.new commands.old.items commands.new.items (steps.assert_checks (terms.value_checks (any_code value.now)) ++ w.assign result_name (terms.value_term (any_code value.now)) ∷ [])) }
    ensures grows { Extends table.old table.new }
{
    let made = push_value(table, commands, value)?;
    assign_name(table, commands, "result", made)
}

/// Adds that the method returns.
fn push_leave(commands: &mut Vec<Command>) -> Result<(), NoMemory>
    ensures { OnOk result ((t : Listing) → AddsCommands t commands.old.items commands.new.items (w.leave ∷ [])) }
{
    commands.push(Command::Leave)?;
    Ok(())
}

/// Adds a return: the checks of the value, that the result is the value, where there is one, and that the method returns.
pub fn push_return(
    table: &mut Table,
    commands: &mut Vec<Command>,
    value: &Option<AnyCode>,
) -> Result<(), NoMemory>
    ensures commands { OnOk result (AddsCommands table.new commands.old.items commands.new.items (return_commands (option_map any_code value.now))) }
    ensures grows { Extends table.old table.new }
{
    match value {
        None => push_leave(commands),
        Some(value) => {
            push_result(table, commands, value)?;
            push_leave(commands)
        }
    }
}
