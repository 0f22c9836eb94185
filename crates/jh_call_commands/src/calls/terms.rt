#![tactic(auto, using(jh_command_terms::proofs::terms::CheckSteps::check_steps, jh_arena::proofs::table::Listed::growth_steps), unfolding(crate::specs::calls::Called::IsKept, crate::specs::calls::Called::AreValues))]

ghost use Rattle.std.specs.Prelude.{◌≡◌, ◌++◌, map, option_map, IfOk, OnOk};
ghost use Rattle.jh_arena.specs.table.Growth.{Extends};
ghost use Rattle.jh_guard.specs.Terms as terms;
ghost use Rattle.jh_guard.specs.Steps.{target_checks};
ghost use Rattle.jh_guard.specs.Calls as guard;
ghost use Rattle.jh_semantics.specs.typed_code.Codes.{object_code, any_code};
ghost use Rattle.jh_semantics.specs.typed_code.Statements.{target_in};
ghost use Rattle.jh_command_terms.specs.terms.Checks.{AddsChecks, IsReceiver};
ghost use Rattle.jh_call_commands.specs.calls.Called.{IsKept, AreValues};

use jh_arena::table::Table;
use jh_command_terms::terms::{CheckNode, check_receiver, object_term, target_term, value_term};
use jh_name::{NoMemory, Place};
use jh_semantics::typed_code::{AnyCode, CallCode, ObjectCode};

/// The nodes of what a call keeps: the receiver of its target where that is a field, its own receiver, and its arguments.
#[derive(Drop)]
pub(crate) struct Kept {
    pub target: Option<usize>,
    pub receiver: Option<usize>,
    pub args: Vec<usize>,
}

/// The node of the receiver of a call, where there is one. Its checks are added; that it isn't null is none of them.
fn receiver_node(
    table: &mut Table,
    checks: &mut Vec<CheckNode>,
    receiver: &Option<ObjectCode>,
) -> Result<Option<usize>, NoMemory>
    ensures node { IfOk result (λ made. IsKept table.new made (option_map object_code receiver.now)) }
    ensures checks { OnOk result (AddsChecks table.new checks.old.items checks.new.items (guard.receiver_value_checks (option_map object_code receiver.now))) }
    ensures grows { Extends table.old table.new }
{
    match receiver {
        None => Ok(None),
        Some(code) => {
            let node = object_term(table, checks, code)?;
            Ok(Some(node))
        }
    }
}

/// Adds the check that the receiver of a call isn't null, where there is one.
fn check_called(
    table: &mut Table,
    checks: &mut Vec<CheckNode>,
    receiver: &Option<ObjectCode>,
    node: Option<usize>,
    place: Place,
) -> Result<(), NoMemory>
    requires { IsKept table.old node (option_map object_code receiver.now) }
    ensures checks { OnOk result (AddsChecks table.new checks.old.items checks.new.items (guard.called_checks (option_map object_code receiver.now) place)) }
    ensures grows { Extends table.old table.new }
{
    match receiver {
        None => Ok(()),
        Some(code) => match node {
            None => Ok(()),
            Some(node) => check_receiver(table, checks, code, node, place),
        },
    }
}

/// The nodes of the values of arguments. Their checks are added.
fn arg_nodes(
    table: &mut Table,
    checks: &mut Vec<CheckNode>,
    args: &[AnyCode],
) -> Result<Vec<usize>, NoMemory>
    ensures nodes { IfOk result (λ made. AreValues table.new made.items (map terms.value_term (map any_code args.now))) }
    ensures checks { OnOk result (AddsChecks table.new checks.old.items checks.new.items (guard.all_checks (map any_code args.now))) }
    ensures grows { Extends table.old table.new }
{
    let mut made = Vec::new(table.alloc());
    for place in 0..args.len() {
        let node = value_term(table, checks, &args[place])?;
        made.push(node)?;
    }
    Ok(made)
}

/// The nodes of what a call keeps. All that is checked before the call is added.
pub(crate) fn call_terms(
    table: &mut Table,
    checks: &mut Vec<CheckNode>,
    call: &CallCode,
) -> Result<Kept, NoMemory>
    ensures target { IfOk result (λ made. IsReceiver table.new made.target (target_in call.now.target)) }
    ensures receiver { IfOk result (λ made. IsKept table.new made.receiver (option_map object_code call.now.receiver)) }
    ensures args { IfOk result (λ made. AreValues table.new made.args.items (map terms.value_term (map any_code call.now.args))) }
    ensures checks { OnOk result (AddsChecks table.new checks.old.items checks.new.items (target_checks (target_in call.now.target) ++ guard.receiver_value_checks (option_map object_code call.now.receiver) ++ guard.all_checks (map any_code call.now.args) ++ guard.called_checks (option_map object_code call.now.receiver) call.now.receiver_place)) }
    ensures grows { Extends table.old table.new }
{
    let target = target_term(table, checks, &call.target)?;
    let receiver = receiver_node(table, checks, &call.receiver)?;
    let args = arg_nodes(table, checks, call.args.items())?;
    check_called(table, checks, &call.receiver, receiver, call.receiver_place)?;
    Ok(Kept {
        target,
        receiver,
        args,
    })
}
