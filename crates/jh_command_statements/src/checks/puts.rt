#![tactic(auto, using(crate::proofs::checks::StepSteps::step_steps, jh_state_facts::proofs::changes::AddedSteps::added_steps, jh_arena::proofs::table::Listed::growth_steps), unfolding(jh_semantics::specs::typed_code::Statements::target_in, jh_command_terms::specs::terms::Checks::IsReceiver))]

ghost use Rattle.std.specs.Prelude.{◌≡◌, ◌++◌, ◌∷◌, [], true, IfOk, OnOk, Some, is_some, slice_get};
ghost use Rattle.jh_form.specs.Tree.{TermTree, ValueTree, of_object, of_field};
ghost use Rattle.jh_form.specs.Tree as t;
ghost use Rattle.jh_arena.specs.table.Entries.{is_object};
ghost use Rattle.jh_arena.specs.table.Growth.{Extends};
ghost use Rattle.jh_arena.specs.table.Nodes.{nodes};
ghost use Rattle.jh_wp.specs.Command as w;
ghost use Rattle.jh_semantics.specs.State.{named};
ghost use Rattle.jh_guard.specs.Terms as terms;
ghost use Rattle.jh_guard.specs.Steps as steps;
ghost use Rattle.jh_semantics.specs.typed_code.Codes.{object_code};
ghost use Rattle.jh_semantics.specs.typed_code.Statements.{target_in};
ghost use Rattle.jh_command_terms.specs.terms.Checks.{IsReceiver};
ghost use Rattle.jh_state_facts.specs.changes.Added.{AddsCommands};

use crate::checks::checks::assert_checks;
use jh_arena::makers::{free_field, update};
use jh_arena::table::Table;
use jh_command_terms::command::Command;
use jh_command_terms::terms::{CheckNode, check_receiver};
use jh_name::{Name, NoMemory, Place, name};
use jh_semantics::typed_code::{ObjectCode, Target};

/// Adds that the name of a text gets a value.
pub fn assign_name(
    table: &Table,
    commands: &mut Vec<Command>,
    text: &str,
    value: usize,
) -> Result<(), NoMemory>
    ensures { OnOk result ((v : ValueTree) → slice_get (nodes table.now) value ≡ Some v → AddsCommands table.now commands.old.items commands.new.items (w.assign (named text.now) v ∷ [])) }
{
    let plain = name(table.alloc(), text, 0)?;
    commands.push(Command::Assign(plain, value))?;
    Ok(())
}

/// The node of the field of a text with another value at one object.
fn updated_field(
    table: &mut Table,
    field: &str,
    object: usize,
    value: usize,
) -> Result<usize, NoMemory>
    requires object { is_object (slice_get (nodes table.old) object) ≡ true }
    requires value { is_some (slice_get (nodes table.old) value) ≡ true }
    ensures node { IfOk result (λ made. (a : TermTree) (v : ValueTree) → slice_get (nodes table.old) object ≡ Some (of_object a) → slice_get (nodes table.old) value ≡ Some v → slice_get (nodes table.new) made ≡ Some (of_field (t.update (t.free_field (named field.now)) a v))) }
    ensures grows { Extends table.old table.new }
{
    let plain = name(table.alloc(), field, 0)?;
    let old = free_field(table, &plain)?;
    update(table, old, object, value)
}

/// Adds that the field of a text takes another value at an object.
pub fn put_field(
    table: &mut Table,
    commands: &mut Vec<Command>,
    field: &str,
    object: usize,
    value: usize,
) -> Result<(), NoMemory>
    requires object { is_object (slice_get (nodes table.old) object) ≡ true }
    requires value { is_some (slice_get (nodes table.old) value) ≡ true }
    ensures commands { OnOk result ((a : TermTree) (v : ValueTree) → slice_get (nodes table.old) object ≡ Some (of_object a) → slice_get (nodes table.old) value ≡ Some v → AddsCommands table.new commands.old.items commands.new.items (steps.put_field field.now a v ∷ [])) }
    ensures grows { Extends table.old table.new }
{
    let updated = updated_field(table, field, object, value)?;
    assign_name(table, commands, field, updated)
}

/// Adds that the receiver of a field isn't null, unless it is `this`.
fn assert_receiver(
    table: &mut Table,
    commands: &mut Vec<Command>,
    receiver: &ObjectCode,
    node: usize,
    place: Place,
) -> Result<(), NoMemory>
    requires { slice_get (nodes table.old) node ≡ Some (of_object (terms.object_term (object_code receiver.now))) }
    ensures commands { OnOk result (AddsCommands table.new commands.old.items commands.new.items (steps.assert_checks (terms.receiver_checks (object_code receiver.now) place))) }
    ensures grows { Extends table.old table.new }
{
    let mut checks: Vec<CheckNode> = Vec::new(table.alloc());
    check_receiver(table, &mut checks, receiver, node, place)?;
    assert_checks(table, commands, checks.as_slice())
}

/// Adds that the field of a text gets a value at a receiver, which isn't null unless it is `this`.
fn put_at(
    table: &mut Table,
    commands: &mut Vec<Command>,
    field: &Name,
    receiver: &ObjectCode,
    node: usize,
    place: Place,
    value: usize,
) -> Result<(), NoMemory>
    requires node { slice_get (nodes table.old) node ≡ Some (of_object (terms.object_term (object_code receiver.now))) }
    requires value { is_some (slice_get (nodes table.old) value) ≡ true }
    ensures commands { OnOk result ((v : ValueTree) → slice_get (nodes table.old) value ≡ Some v → AddsCommands table.new commands.old.items commands.new.items (steps.assert_checks (terms.receiver_checks (object_code receiver.now) place) ++ steps.put_field field.now.text (terms.object_term (object_code receiver.now)) v ∷ [])) }
    ensures grows { Extends table.old table.new }
{
    assert_receiver(table, commands, receiver, node, place)?;
    put_field(table, commands, field.text(), node, value)
}

/// Adds that a value goes to a target, whose receiver's node is given where it is a field.
pub fn put(
    table: &mut Table,
    commands: &mut Vec<Command>,
    target: &Target,
    receiver: Option<usize>,
    value: usize,
) -> Result<(), NoMemory>
    requires receiver { IsReceiver table.old receiver (target_in target.now) }
    requires value { is_some (slice_get (nodes table.old) value) ≡ true }
    ensures commands { OnOk result ((v : ValueTree) → slice_get (nodes table.old) value ≡ Some v → AddsCommands table.new commands.old.items commands.new.items (steps.put (target_in target.now) v)) }
    ensures grows { Extends table.old table.new }
{
    match target {
        Target::Nowhere => Ok(()),
        Target::New(local) => assign_name(table, commands, local.name.text(), value),
        Target::Name(name) => assign_name(table, commands, name.text(), value),
        Target::Field(field, object, place) => match receiver {
            None => Ok(()),
            Some(node) => put_at(table, commands, field, object, node, *place, value),
        },
    }
}
