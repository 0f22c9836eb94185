#![tactic(auto, using(crate::proofs::simple_statements::CheckedSteps::checked_steps, crate::proofs::simple_statements::LeftSteps::left_steps, jh_arena::proofs::table::Listed::growth_steps))]

ghost use Rattle.std.specs.Prelude.{◌≡◌, ◌∷◌, [], true, IfOk, OnOk, Some, is_some, slice_get};
ghost use Rattle.jh_ast.specs.Programs.{ProgramTree};
ghost use Rattle.jh_form.specs.Tree.{TermTree, ValueTree, of_object};
ghost use Rattle.jh_form.specs.Tree as t;
ghost use Rattle.jh_form.specs.declared.mark.MarkKind.TheVariants as kind;
ghost use Rattle.jh_arena.specs.table.Entries.{is_object};
ghost use Rattle.jh_arena.specs.table.Growth.{Extends};
ghost use Rattle.jh_arena.specs.table.Nodes.{nodes};
ghost use Rattle.jh_wp.specs.Command as w;
ghost use Rattle.jh_semantics.specs.State.{named};
ghost use Rattle.jh_semantics.specs.LoweredStmts as lowered;
ghost use Rattle.jh_guard.specs.Steps as steps;
ghost use Rattle.jh_semantics.specs.typed_code.Statements.{value_of};
ghost use Rattle.jh_state_facts.specs.changes.Added.{AddsCommands};
ghost use Rattle.jh_command_statements.specs.checks.Told.{AreFormulas};
ghost use Rattle.jh_command_statements.specs.simple_statements.Ghosts.{ghost_commands, left_in, object_stands};

use crate::checks::{assert_bare, assign_name, put_field};
use crate::simple_statements::creating::set_node;
use crate::simple_statements::ghosts::Left;
use crate::simple_statements::lefts::left_of;
use crate::simple_statements::values::{of_this_kind, value_node};
use jh_arena::makers::member;
use jh_arena::table::Table;
use jh_command_terms::command::Command;
use jh_form::MarkKind;
use jh_name::{Kind, NoMemory, Place};

/// The class of a member, whose text begins with the class and a dot.
pub fn class_before_dot(text: &str) -> &str
    ensures { result.now ≡ lowered.class_before_dot text.now }
{
    match text.split_once('.') {
        None => "",
        Some((class, _)) => class,
    }
}

/// Adds that an object is asserted to be one of a class.
fn push_member(
    table: &mut Table,
    commands: &mut Vec<Command>,
    place: Place,
    class: &str,
    object: usize,
) -> Result<(), NoMemory>
    requires { is_object (slice_get (nodes table.old) object) ≡ true }
    ensures commands { OnOk result ((a : TermTree) → slice_get (nodes table.old) object ≡ Some (of_object a) → AddsCommands table.new commands.old.items commands.new.items (w.assert (t.mark (steps.mark_without_name kind.Assert place) (t.member a (t.free_set (named class.now)))) ∷ [])) }
    ensures grows { Extends table.old table.new }
{
    let set = set_node(table, class)?;
    let fact = member(table, object, set)?;
    assert_bare(table, commands, MarkKind::Assert, place, fact)
}

/// The node of the value of a number in the source, of a kind: where the value is of another, anything of the kind.
pub fn kind_value(
    table: &mut Table,
    formulas: &[Option<usize>],
    kind: Kind,
    number: u32,
) -> Result<usize, NoMemory>
    ensures there { IfOk result (λ made. is_some (slice_get (nodes table.new) made) ≡ true) }
    ensures node { IfOk result (λ made. (p : ProgramTree) → AreFormulas p table.old formulas.now → slice_get (nodes table.new) made ≡ Some (lowered.of_kind kind (value_of p number))) }
    ensures grows { Extends table.old table.new }
{
    let node = value_node(table, formulas, number)?;
    of_this_kind(table, kind, node)
}

/// Adds that a field takes a value at an object, which is asserted to be one of the field's class.
fn push_read(
    table: &mut Table,
    commands: &mut Vec<Command>,
    place: Place,
    field: &str,
    object: usize,
    value: usize,
) -> Result<(), NoMemory>
    requires object { is_object (slice_get (nodes table.old) object) ≡ true }
    requires value { is_some (slice_get (nodes table.old) value) ≡ true }
    ensures commands { OnOk result ((a : TermTree) (v : ValueTree) → slice_get (nodes table.old) object ≡ Some (of_object a) → slice_get (nodes table.old) value ≡ Some v → AddsCommands table.new commands.old.items commands.new.items (w.assert (t.mark (steps.mark_without_name kind.Assert place) (t.member a (t.free_set (named (lowered.class_before_dot field.now))))) ∷ steps.put_field field.now a v ∷ [])) }
    ensures grows { Extends table.old table.new }
{
    push_member(table, commands, place, class_before_dot(field), object)?;
    put_field(table, commands, field, object, value)
}

/// Adds that a left side gets the value of a number.
fn push_left(
    table: &mut Table,
    commands: &mut Vec<Command>,
    formulas: &[Option<usize>],
    place: Place,
    left: &Left,
    number: u32,
) -> Result<(), NoMemory>
    requires { object_stands table.old left.now ≡ true }
    ensures commands { OnOk result ((p : ProgramTree) → AreFormulas p table.old formulas.now → AddsCommands table.new commands.old.items commands.new.items (ghost_commands place (left_in table.old left.now) (value_of p number))) }
    ensures grows { Extends table.old table.new }
{
    match left {
        Left::Nothing => Ok(()),
        Left::Name(kind, name) => {
            let value = kind_value(table, formulas, *kind, number)?;
            assign_name(table, commands, name.text(), value)
        }
        Left::Read(kind, field, object) => {
            let value = kind_value(table, formulas, *kind, number)?;
            push_read(table, commands, place, field.text(), *object, value)
        }
    }
}

/// Adds a ghost assignment, by the numbers in the source of what stands on its left and on its right; `place` is that of
/// the left side. Where that is no name and no read of a field, nothing is assigned.
pub fn push_ghost(
    table: &mut Table,
    commands: &mut Vec<Command>,
    formulas: &[Option<usize>],
    place: Place,
    target: u32,
    value: u32,
) -> Result<(), NoMemory>
    ensures commands { OnOk result ((p : ProgramTree) → AreFormulas p table.old formulas.now → AddsCommands table.new commands.old.items commands.new.items (ghost_commands place (lowered.ghost_target (value_of p target)) (value_of p value))) }
    ensures grows { Extends table.old table.new }
{
    let target = value_node(table, formulas, target)?;
    let left = left_of(table, target)?;
    push_left(table, commands, formulas, place, &left, value)
}
