#![tactic(auto)]

ghost use Rattle.std.specs.Prelude.{◌≡◌, ◌+◌, ◌<◌, suc, if◌then◌else◌, is_some, length, option_map, IfOk};
ghost use Rattle.jh_rules.specs.Kinds as kinds;
ghost use Rattle.jh_guard.specs.Steps as steps;
ghost use Rattle.jh_guard.specs.Calls as guard;
ghost use Rattle.jh_semantics.specs.typed_code.Codes.{object_code};
ghost use Rattle.jh_semantics.specs.typed_code.Statements.{target_in};
ghost use Rattle.jh_state_facts.specs.changes.Added.{sorted_in};
ghost use Rattle.jh_call_commands.specs.calls.TurnsOf.{turns_in};

use crate::calls::called::Called;
use jh_name::NoMemory;
use jh_rules::Ty;
use jh_semantics::typed_code::{CallCode, ObjectCode, Target};
use jh_state_facts::changes::SortedName;

/// The turns of the fresh names of a call: of the receiver, of the first argument, of the target's receiver, of the copies of
/// the state, of the result, and the one that is free behind them.
#[derive(Clone, Copy)]
pub struct Turns {
    pub receiver: u32,
    pub args: u32,
    pub target: u32,
    pub copies: u32,
    pub result: u32,
    pub next: u32,
}

/// A turn later by this number; the answer is want of memory where there is none.
fn later(turn: u32, by: usize) -> Result<u32, NoMemory>
    ensures { IfOk result (λ later. later ≡ by + turn) }
{
    match u32::try_from(by) {
        Err(_) => Err(NoMemory),
        Ok(by) => match by.checked_add(turn) {
            None => Err(NoMemory),
            Some(later) => Ok(later),
        },
    }
}

/// How many fresh names a receiver takes.
fn receiver_count(receiver: &Option<ObjectCode>) -> usize
    ensures { result ≡ (if is_some (option_map object_code receiver.now) then 1 else 0) }
{
    match receiver {
        None => 0,
        Some(_) => 1,
    }
}

/// How many fresh names a target takes.
#[tactic(auto, unfolding(jh_semantics::specs::typed_code::Statements::target_in))]
fn target_count(target: &Target) -> usize
    ensures { result ≡ guard.target_count (target_in target.now) }
{
    match target {
        Target::Nowhere => 0,
        Target::New(_) => 0,
        Target::Name(_) => 0,
        Target::Field(_, _, _) => 1,
    }
}

/// How many fresh names a result takes.
fn result_count(ty: Ty) -> usize
    ensures { result ≡ (if kinds.is_void ty then 0 else 1) }
{
    match ty {
        Ty::Void => 0,
        Ty::Int => 1,
        Ty::Boolean => 1,
        Ty::Null => 1,
        Ty::Object => 1,
        Ty::Class(_) => 1,
    }
}

/// The turn behind the copies and havocs of names.
fn after_changed(names: &[SortedName<'_>], turn: u32) -> Result<u32, NoMemory>
    ensures { IfOk result (λ next. next ≡ steps.after_changed (sorted_in names.now) turn) }
{
    if names.is_empty() {
        return Ok(turn);
    }
    let first = later(turn, 1)?;
    later(first, names.len())
}

/// The turns of a call whose fresh names have the turns from this one on.
pub fn turns_of(call: &CallCode, called: &Called<'_>, turn: u32) -> Result<Turns, NoMemory>
    ensures { IfOk result (λ made. turns_in made ≡ guard.call_turns (target_in call.now.target) (option_map object_code call.now.receiver) (length called.now.method.now.params) (sorted_in called.now.written.now) called.now.method.now.result turn) }
{
    let args = later(turn, receiver_count(&call.receiver))?;
    let target = later(args, called.method.params.items().len())?;
    let copies = later(target, target_count(&call.target))?;
    let result = after_changed(called.written, copies)?;
    let next = later(result, result_count(called.method.result))?;
    Ok(Turns {
        receiver: turn,
        args,
        target,
        copies,
        result,
        next,
    })
}
