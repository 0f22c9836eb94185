#![tactic(auto, using(jh_state_facts::proofs::changes::AddedSteps::added_steps, jh_arena::proofs::table::Listed::growth_steps), unfolding(jh_semantics::specs::typed_code::Statements::target_in, jh_semantics::specs::typed_code::Codes::object_code))]

ghost use Rattle.std.specs.Prelude.{◌≡◌, ◌++◌, ◌∷◌, [], true, IfOk, OnOk, Some, is_some, slice_get};
ghost use Rattle.jh_form.specs.Tree.{ValueTree, of_object};
ghost use Rattle.jh_form.specs.Tree as t;
ghost use Rattle.jh_arena.specs.table.Growth.{Extends};
ghost use Rattle.jh_arena.specs.table.Nodes.{nodes};
ghost use Rattle.jh_vars.specs.state_names.States.{sort_of};
ghost use Rattle.jh_guard.specs.Items.{free_of};
ghost use Rattle.jh_guard.specs.Steps as steps;
ghost use Rattle.jh_guard.specs.Terms as terms;
ghost use Rattle.jh_guard.specs.Calls as guard;
ghost use Rattle.jh_semantics.specs.typed_code.Codes.{object_code};
ghost use Rattle.jh_semantics.specs.typed_code.Statements.{target_in};
ghost use Rattle.jh_state_facts.specs.changes.Added.{AddsCommands};

use jh_arena::makers::{free_number, free_object, free_set, free_truth};
use jh_arena::table::Table;
use jh_command_terms::command::Command;
use jh_command_terms::terms::{CheckNode, push_not_null};
use jh_havoc::jh_command_statements::checks::{assert_checks, assign_name, put_field};
use jh_name::{Kind, Name, NoMemory, Place, name};
use jh_rules::{Ty, kind_of};
use jh_semantics::typed_code::{ObjectCode, Target};

/// The node of the value of a name of a kind.
fn free_node(table: &mut Table, kind: Kind, name: &Name) -> Result<usize, NoMemory>
    ensures node { IfOk result (λ made. slice_get (nodes table.new) made ≡ Some (free_of (sort_of kind) name.now)) }
    ensures grows { Extends table.old table.new }
{
    match kind {
        Kind::Obj => free_object(table, name),
        Kind::Int => free_number(table, name),
        Kind::Bool => free_truth(table, name),
        Kind::Set => free_set(table, name),
    }
}

/// The node of the result of a call, at its turn.
fn result_node(table: &mut Table, ty: Ty, turn: u32) -> Result<usize, NoMemory>
    ensures node { IfOk result (λ made. slice_get (nodes table.new) made ≡ Some (guard.result_value ty turn)) }
    ensures grows { Extends table.old table.new }
{
    let fresh = name(table.alloc(), "result", turn)?;
    free_node(table, kind_of(ty), &fresh)
}

/// The node of the receiver of a call's target, under its fresh name.
fn target_node(table: &mut Table, turn: u32) -> Result<usize, NoMemory>
    ensures node { IfOk result (λ made. slice_get (nodes table.new) made ≡ Some (of_object (t.free_object (steps.fresh guard.target_text turn)))) }
    ensures grows { Extends table.old table.new }
{
    let fresh = name(table.alloc(), "target", turn)?;
    free_object(table, &fresh)
}

/// Adds that an object, the receiver of a call's target under its fresh name, isn't null.
fn assert_not_null(
    table: &mut Table,
    commands: &mut Vec<Command>,
    node: usize,
    place: Place,
    turn: u32,
) -> Result<(), NoMemory>
    requires { slice_get (nodes table.old) node ≡ Some (of_object (t.free_object (steps.fresh guard.target_text turn))) }
    ensures commands { OnOk result (AddsCommands table.new commands.old.items commands.new.items (steps.assert_checks (record { place = place; fact = terms.is_not_null (t.free_object (steps.fresh guard.target_text turn)) } ∷ []))) }
    ensures grows { Extends table.old table.new }
{
    let mut checks: Vec<CheckNode> = Vec::new(table.alloc());
    push_not_null(table, &mut checks, node, place)?;
    let _turn = turn;
    assert_checks(table, commands, checks.as_slice())
}

/// Adds that the receiver of a call's target isn't null, unless it is `this`.
fn assert_kept(
    table: &mut Table,
    commands: &mut Vec<Command>,
    receiver: &ObjectCode,
    node: usize,
    place: Place,
    turn: u32,
) -> Result<(), NoMemory>
    requires { slice_get (nodes table.old) node ≡ Some (of_object (t.free_object (steps.fresh guard.target_text turn))) }
    ensures commands { OnOk result (AddsCommands table.new commands.old.items commands.new.items (steps.assert_checks (guard.kept_checks (object_code receiver.now) place turn))) }
    ensures grows { Extends table.old table.new }
{
    match receiver {
        ObjectCode::This => Ok(()),
        ObjectCode::Null => assert_not_null(table, commands, node, place, turn),
        ObjectCode::Name(_) => assert_not_null(table, commands, node, place, turn),
        ObjectCode::Read(_, _, _) => assert_not_null(table, commands, node, place, turn),
    }
}

/// Adds that the field of a text gets a value at the receiver of a call's target.
fn put_kept(
    table: &mut Table,
    commands: &mut Vec<Command>,
    field: &Name,
    receiver: &ObjectCode,
    place: Place,
    turn: u32,
    value: usize,
) -> Result<(), NoMemory>
    requires { is_some (slice_get (nodes table.old) value) ≡ true }
    ensures commands { OnOk result ((v : ValueTree) → slice_get (nodes table.old) value ≡ Some v → AddsCommands table.new commands.old.items commands.new.items (steps.assert_checks (guard.kept_checks (object_code receiver.now) place turn) ++ steps.put_field field.now.text (t.free_object (steps.fresh guard.target_text turn)) v ∷ [])) }
    ensures grows { Extends table.old table.new }
{
    let node = target_node(table, turn)?;
    assert_kept(table, commands, receiver, node, place, turn)?;
    put_field(table, commands, field.text(), node, value)
}

/// Adds that a value goes to a call's target.
fn put_value(
    table: &mut Table,
    commands: &mut Vec<Command>,
    target: &Target,
    turn: u32,
    value: usize,
) -> Result<(), NoMemory>
    requires { is_some (slice_get (nodes table.old) value) ≡ true }
    ensures commands { OnOk result ((v : ValueTree) → slice_get (nodes table.old) value ≡ Some v → AddsCommands table.new commands.old.items commands.new.items (guard.put_result (target_in target.now) turn v)) }
    ensures grows { Extends table.old table.new }
{
    match target {
        Target::Nowhere => Ok(()),
        Target::New(local) => assign_name(table, commands, local.name.text(), value),
        Target::Name(name) => assign_name(table, commands, name.text(), value),
        Target::Field(field, receiver, place) => {
            put_kept(table, commands, field, receiver, *place, turn, value)
        }
    }
}

/// Adds that the result of a call goes to its target.
pub(crate) fn put_result(
    table: &mut Table,
    commands: &mut Vec<Command>,
    target: &Target,
    target_turn: u32,
    ty: Ty,
    result_turn: u32,
) -> Result<(), NoMemory>
    ensures commands { OnOk result (AddsCommands table.new commands.old.items commands.new.items (guard.put_result (target_in target.now) target_turn (guard.result_value ty result_turn))) }
    ensures grows { Extends table.old table.new }
{
    let value = result_node(table, ty, result_turn)?;
    put_value(table, commands, target, target_turn, value)
}
