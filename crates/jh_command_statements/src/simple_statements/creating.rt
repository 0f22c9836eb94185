#![tactic(auto, using(crate::proofs::simple_statements::CheckedSteps::checked_steps, jh_arena::proofs::table::Listed::growth_steps))]

ghost use Rattle.std.specs.Prelude.{◌≡◌, ◌++◌, ◌∷◌, [], suc, true, IfOk, OnOk, Some, codes, slice_get};
ghost use Rattle.jh_form.specs.Tree.{TermTree, of_object, of_set};
ghost use Rattle.jh_form.specs.Tree as t;
ghost use Rattle.jh_arena.specs.table.Growth.{Extends};
ghost use Rattle.jh_arena.specs.table.Nodes.{nodes};
ghost use Rattle.jh_wp.specs.Command as w;
ghost use Rattle.jh_semantics.specs.State.{named};
ghost use Rattle.jh_guard.specs.Steps as steps;
ghost use Rattle.jh_guard.specs.Statements as statements;
ghost use Rattle.jh_semantics.specs.typed_code.Statements.{target_in};
ghost use Rattle.jh_command_terms.specs.terms.Checks.{IsReceiver};
ghost use Rattle.jh_arena.specs.table.Entries.{is_object};
ghost use Rattle.jh_state_facts.specs.changes.Added.{AddsCommands};

use crate::checks::{assert_checks, assign_name, assume_fact, put};
use jh_arena::makers::{free_object, free_set, singleton, union_of};
use jh_arena::table::Table;
use jh_command_terms::command::Command;
use jh_command_terms::terms::{CheckNode, target_term};
use jh_name::{NoMemory, name};
use jh_semantics::typed_code::Target;
use jh_state_facts::schemas::{Named, ObjectSchema, Schema, SetSchema, Slot, Slots, from_schema};

/// The first name isn't null, and isn't in the set of the second.
static IS_NEW: Schema<'static> = Schema::And(
    &Schema::Not(&Schema::SameObject(ObjectSchema::Name(Slot::First), ObjectSchema::Null)),
    &Schema::Not(&Schema::Member(
        ObjectSchema::Name(Slot::First),
        SetSchema::Name(Slot::Second),
    )),
);

/// The next turn; the answer is want of memory where there is none.
fn next_turn(turn: u32) -> Result<u32, NoMemory>
    ensures { IfOk result (λ next. next ≡ suc turn) }
{
    match turn.checked_add(1) {
        Some(next) => Ok(next),
        None => Err(NoMemory),
    }
}

/// Adds the checks of a target, and answers the node of its receiver, where it is a field.
fn push_target(
    table: &mut Table,
    commands: &mut Vec<Command>,
    target: &Target,
) -> Result<Option<usize>, NoMemory>
    ensures receiver { IfOk result (λ made. IsReceiver table.new made (target_in target.now)) }
    ensures commands { OnOk result (AddsCommands table.new commands.old.items commands.new.items (steps.assert_checks (steps.target_checks (target_in target.now)))) }
    ensures grows { Extends table.old table.new }
{
    let mut checks: Vec<CheckNode> = Vec::new(table.alloc());
    let receiver = target_term(table, &mut checks, target)?;
    assert_checks(table, commands, checks.as_slice())?;
    Ok(receiver)
}

/// Adds that the name of a new object, at a turn, gets the value of one at another turn.
fn push_any(
    table: &Table,
    commands: &mut Vec<Command>,
    turn: u32,
    second: u32,
) -> Result<(), NoMemory>
    ensures { OnOk result (AddsCommands table.now commands.old.items commands.new.items (w.havoc (steps.fresh statements.new_text turn) (steps.fresh statements.new_text second) ∷ [])) }
{
    let object = name(table.alloc(), "new", turn)?;
    let any = name(table.alloc(), "new", second)?;
    commands.push(Command::Havoc(object, any))?;
    Ok(())
}

/// Adds that the object of the name at a turn is new.
fn push_is_new(table: &mut Table, commands: &mut Vec<Command>, turn: u32) -> Result<(), NoMemory>
    ensures commands { OnOk result (AddsCommands table.new commands.old.items commands.new.items (w.assume (statements.is_new (t.free_object (steps.fresh statements.new_text turn))) ∷ [])) }
    ensures grows { Extends table.old table.new }
{
    let object = Named { text: "new", turn };
    let slots = Slots {
        first: object,
        second: Named {
            text: "alloc",
            turn: 0,
        },
        third: object,
    };
    let fact = from_schema(table, &slots, &IS_NEW)?;
    assume_fact(table, commands, fact)
}

/// The node of the object of the name at a turn.
fn object_at(table: &mut Table, turn: u32) -> Result<usize, NoMemory>
    ensures node { IfOk result (λ made. slice_get (nodes table.new) made ≡ Some (of_object (t.free_object (steps.fresh statements.new_text turn)))) }
    ensures grows { Extends table.old table.new }
{
    let object = name(table.alloc(), "new", turn)?;
    free_object(table, &object)
}

/// Adds that the name at a turn is any new object, and answers its node.
fn push_object(
    table: &mut Table,
    commands: &mut Vec<Command>,
    turn: u32,
    second: u32,
) -> Result<usize, NoMemory>
    ensures node { IfOk result (λ made. slice_get (nodes table.new) made ≡ Some (of_object (t.free_object (steps.fresh statements.new_text turn)))) }
    ensures commands { OnOk result (AddsCommands table.new commands.old.items commands.new.items (w.havoc (steps.fresh statements.new_text turn) (steps.fresh statements.new_text second) ∷ w.assume (statements.is_new (t.free_object (steps.fresh statements.new_text turn))) ∷ [])) }
    ensures grows { Extends table.old table.new }
{
    push_any(table, commands, turn, second)?;
    push_is_new(table, commands, turn)?;
    object_at(table, turn)
}

/// The node of the set of a text.
pub(crate) fn set_node(table: &mut Table, text: &str) -> Result<usize, NoMemory>
    ensures node { IfOk result (λ made. slice_get (nodes table.new) made ≡ Some (of_set (t.free_set (named text.now)))) }
    ensures grows { Extends table.old table.new }
{
    let plain = name(table.alloc(), text, 0)?;
    free_set(table, &plain)
}

/// The node of the set of a text with one more object.
fn joined_set(table: &mut Table, text: &str, object: usize) -> Result<usize, NoMemory>
    requires { is_object (slice_get (nodes table.old) object) ≡ true }
    ensures node { IfOk result (λ made. (a : TermTree) → slice_get (nodes table.old) object ≡ Some (of_object a) → slice_get (nodes table.new) made ≡ Some (of_set (t.union (t.free_set (named text.now)) (t.single a)))) }
    ensures grows { Extends table.old table.new }
{
    let one = singleton(table, object)?;
    let set = set_node(table, text)?;
    union_of(table, set, one)
}

/// Adds that an object joins the set of a text.
fn push_joins(
    table: &mut Table,
    commands: &mut Vec<Command>,
    text: &str,
    object: usize,
) -> Result<(), NoMemory>
    requires { is_object (slice_get (nodes table.old) object) ≡ true }
    ensures commands { OnOk result ((a : TermTree) → slice_get (nodes table.old) object ≡ Some (of_object a) → AddsCommands table.new commands.old.items commands.new.items (statements.joins (named text.now) a ∷ [])) }
    ensures grows { Extends table.old table.new }
{
    let set = joined_set(table, text, object)?;
    assign_name(table, commands, text, set)
}

/// Adds that an object joins all objects and those of a class.
fn push_both(
    table: &mut Table,
    commands: &mut Vec<Command>,
    class: &str,
    object: usize,
) -> Result<(), NoMemory>
    requires { is_object (slice_get (nodes table.old) object) ≡ true }
    ensures commands { OnOk result ((a : TermTree) → slice_get (nodes table.old) object ≡ Some (of_object a) → AddsCommands table.new commands.old.items commands.new.items (statements.joins (named (codes "alloc")) a ∷ statements.joins (named class.now) a ∷ [])) }
    ensures grows { Extends table.old table.new }
{
    push_joins(table, commands, "alloc", object)?;
    push_joins(table, commands, class, object)
}

/// Adds that a name at a turn is a new object, which joins all objects and those of a class; answers its node.
fn push_steps(
    table: &mut Table,
    commands: &mut Vec<Command>,
    class: &str,
    turn: u32,
    second: u32,
) -> Result<usize, NoMemory>
    ensures node { IfOk result (λ made. slice_get (nodes table.new) made ≡ Some (of_object (t.free_object (steps.fresh statements.new_text turn)))) }
    ensures commands { OnOk result (AddsCommands table.new commands.old.items commands.new.items (w.havoc (steps.fresh statements.new_text turn) (steps.fresh statements.new_text second) ∷ w.assume (statements.is_new (t.free_object (steps.fresh statements.new_text turn))) ∷ statements.joins (named (codes "alloc")) (t.free_object (steps.fresh statements.new_text turn)) ∷ statements.joins (named class.now) (t.free_object (steps.fresh statements.new_text turn)) ∷ [])) }
    ensures grows { Extends table.old table.new }
{
    let object = push_object(table, commands, turn, second)?;
    push_both(table, commands, class, object)?;
    Ok(object)
}

/// Adds a new object of a class: the checks of the target, the object at a turn, and that it goes to the target. Answers
/// the turn that is free behind it; want of memory where there is none.
pub fn push_new(
    table: &mut Table,
    commands: &mut Vec<Command>,
    target: &Target,
    class: &str,
    turn: u32,
) -> Result<u32, NoMemory>
    ensures commands { OnOk result (AddsCommands table.new commands.old.items commands.new.items (steps.assert_checks (steps.target_checks (target_in target.now)) ++ statements.new_steps (target_in target.now) class.now (steps.fresh statements.new_text turn) (steps.fresh statements.new_text (suc turn)))) }
    ensures next { IfOk result (λ next. next ≡ suc (suc turn)) }
    ensures grows { Extends table.old table.new }
{
    let second = next_turn(turn)?;
    let next = next_turn(second)?;
    let receiver = push_target(table, commands, target)?;
    let object = push_steps(table, commands, class, turn, second)?;
    put(table, commands, target, receiver, object)?;
    Ok(next)
}
