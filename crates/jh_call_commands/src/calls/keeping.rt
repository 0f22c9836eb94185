#![tactic(auto, using(jh_state_facts::proofs::changes::AddedSteps::added_steps, jh_arena::proofs::table::Listed::growth_steps), unfolding(crate::specs::calls::Called::IsKept, crate::specs::calls::Called::AreValues, jh_command_terms::specs::terms::Checks::IsReceiver))]

ghost use Rattle.std.specs.Prelude.{◌≡◌, ◌<◌, ◌∷◌, [], suc, map, List, Option, IfOk, OnOk, Some, length, slice_get};
ghost use Rattle.jh_form.specs.Tree.{ValueTree};
ghost use Rattle.jh_arena.specs.table.Nodes.{nodes};
ghost use Rattle.jh_wp.specs.Command as w;
ghost use Rattle.jh_semantics.specs.Code as code;
ghost use Rattle.jh_guard.specs.Steps as steps;
ghost use Rattle.jh_guard.specs.Calls as guard;
ghost use Rattle.jh_guard.specs.Terms as terms;
ghost use Rattle.jh_semantics.specs.typed_code.Statements.{local_in};
ghost use Rattle.jh_command_terms.specs.terms.Checks.{IsReceiver};
ghost use Rattle.jh_state_facts.specs.changes.Added.{AddsCommands};
ghost use Rattle.jh_call_commands.specs.calls.Called.{IsKept, AreValues};

use jh_arena::table::Table;
use jh_command_terms::command::Command;
use jh_name::{NoMemory, name};
use jh_semantics::typed_code::Local;

/// Adds that the name of a text at a turn gets a value.
fn keep(
    table: &Table,
    commands: &mut Vec<Command>,
    text: &str,
    turn: u32,
    value: usize,
) -> Result<(), NoMemory>
    ensures { OnOk result ((v : ValueTree) → slice_get (nodes table.now) value ≡ Some v → AddsCommands table.now commands.old.items commands.new.items (w.assign (steps.fresh text.now turn) v ∷ [])) }
{
    let fresh = name(table.alloc(), text, turn)?;
    commands.push(Command::Assign(fresh, value))?;
    Ok(())
}

/// Adds that the receiver of a call goes into a fresh name, where there is one.
pub(crate) fn keep_receiver(
    table: &Table,
    commands: &mut Vec<Command>,
    receiver: Option<usize>,
    turn: u32,
) -> Result<(), NoMemory>
    ensures { OnOk result ((r : Option code.ObjectCode) → IsKept table.now receiver r → AddsCommands table.now commands.old.items commands.new.items (guard.keep_receiver r turn)) }
{
    match receiver {
        None => Ok(()),
        Some(node) => keep(table, commands, "this", turn, node),
    }
}

/// The next turn; the answer is want of memory where there is none.
fn next_turn(turn: u32) -> Result<u32, NoMemory>
    ensures { IfOk result (λ next. next ≡ suc turn) }
{
    match turn.checked_add(1) {
        Some(next) => Ok(next),
        None => Err(NoMemory),
    }
}

/// The node at a place.
fn node_at(args: &[usize], place: usize) -> usize
    requires { place < length args.now }
    ensures { slice_get args.now place ≡ Some result }
{
    args[place]
}

/// The parameter at a place.
fn param_at(params: &[Local], place: usize) -> &Local
    requires { place < length params.now }
    ensures { slice_get params.now place ≡ Some result.now }
{
    &params[place]
}

/// Adds that arguments go into fresh names, of the texts of the parameters, each with a turn of its own.
pub(crate) fn keep_args(
    table: &Table,
    commands: &mut Vec<Command>,
    params: &[Local],
    args: &[usize],
    turn: u32,
) -> Result<(), NoMemory>
    ensures { OnOk result ((es : List code.AnyCode) → AreValues table.now args.now (map terms.value_term es) → AddsCommands table.now commands.old.items commands.new.items (guard.keep_args (map local_in params.now) es turn)) }
{
    let mut next = turn;
    for place in 0..args.len() {
        if place >= params.len() {
            return Ok(());
        }
        let text = param_at(params, place).name.text();
        keep(table, commands, text, next, node_at(args, place))?;
        next = next_turn(next)?;
    }
    Ok(())
}

/// Adds that the receiver of a target goes into a fresh name, where the target is a field.
pub(crate) fn keep_target(
    table: &Table,
    commands: &mut Vec<Command>,
    receiver: Option<usize>,
    turn: u32,
) -> Result<(), NoMemory>
    ensures { OnOk result ((x : code.Target) → IsReceiver table.now receiver x → AddsCommands table.now commands.old.items commands.new.items (guard.keep_target x turn)) }
{
    match receiver {
        None => Ok(()),
        Some(node) => keep(table, commands, "target", turn, node),
    }
}
