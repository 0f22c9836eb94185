ghost use Rattle.std.specs.Prelude.{◌≡◌, ◌+◌, ◌++◌, List, true, IfOk, IfSome, OnOk, None, Some, slice_get};
ghost use Rattle.jh_form.specs.Tree.{FieldTree, FieldTrees, FormulaTree, of_field};
ghost use Rattle.jh_form.specs.Tree as t;
ghost use Rattle.jh_arena.specs.table.Entries.{is_truth};
ghost use Rattle.jh_arena.specs.table.Growth.{Extends};
ghost use Rattle.jh_arena.specs.table.Nodes.{nodes};
ghost use Rattle.jh_import.specs.entering.Entered.{IsList};
ghost use Rattle.jh_seq.specs.splitting.Forests.{forest_goals, no_cycles, one_sources, apart_from, all_apart};
ghost use Rattle.jh_splitting.specs.Edges.{HoldsField, fields_from, list_at};
ghost use Rattle.jh_splitting.specs.Pairs.{ArePaired};
ghost use Rattle.jh_splitting.specs.Standing.{IsFormula};

use crate::edges::{apart, no_cycle, one_source};
use jh_arena::table::{Shape, Table};
use jh_name::NoMemory;

/// The item at a place of a list, where there is one.
fn item_at(items: &[usize], index: usize) -> Option<usize>
    ensures { result ≡ slice_get items.now index }
{
    items.get(index).copied()
}

/// The field at a place of a list, where there is one.
fn field_of(table: &Table, list: usize, index: usize) -> Option<usize>
    requires list { IsList table.now list (list_at table.now list) }
    ensures some { IfSome result (λ field. (fs : FieldTrees) → IsList table.now list fs → (f : FieldTree) × (slice_get (nodes table.now) field ≡ Some (of_field f)) × (fields_from index fs ≡ t.more f (fields_from (index + 1) fs))) }
    ensures none { result ≡ None → (fs : FieldTrees) → IsList table.now list fs → fields_from index fs ≡ t.none }
{
    item_at(table.list_at(list), index)
}

/// Adds the goals that no field leads back.
fn add_cycles(table: &mut Table, goals: &mut Vec<usize>, list: usize) -> Result<(), NoMemory>
    requires list { IsList table.old list (list_at table.old list) }
    ensures goals { (fs : FieldTrees) (gs : List FormulaTree) → IsList table.old list fs → ArePaired (IsFormula table.old) goals.old.items gs → OnOk result (ArePaired (IsFormula table.new) goals.new.items (gs ++ no_cycles fs fs)) }
    ensures grows { Extends table.old table.new }
{
    for index in 0..usize::MAX {
        match field_of(table, list, index) {
            None => return Ok(()),
            Some(field) => {
                let goal = no_cycle(table, list, field)?;
                goals.push(goal)?;
            }
        }
    }
    Err(NoMemory)
}

/// Adds the goals that no field leads to one object twice.
fn add_sources(table: &mut Table, goals: &mut Vec<usize>, list: usize) -> Result<(), NoMemory>
    requires list { IsList table.old list (list_at table.old list) }
    ensures goals { (fs : FieldTrees) (gs : List FormulaTree) → IsList table.old list fs → ArePaired (IsFormula table.old) goals.old.items gs → OnOk result (ArePaired (IsFormula table.new) goals.new.items (gs ++ one_sources fs)) }
    ensures grows { Extends table.old table.new }
{
    for index in 0..usize::MAX {
        match field_of(table, list, index) {
            None => return Ok(()),
            Some(field) => {
                let goal = one_source(table, field)?;
                goals.push(goal)?;
            }
        }
    }
    Err(NoMemory)
}

/// Adds the goals that a field and one behind it in the list, from a place on, lead to no object both.
fn add_apart_from(
    table: &mut Table,
    goals: &mut Vec<usize>,
    list: usize,
    field: usize,
    from: usize,
) -> Result<(), NoMemory>
    requires list { IsList table.old list (list_at table.old list) }
    requires field { HoldsField table.old field }
    ensures goals { (fs : FieldTrees) (f : FieldTree) (gs : List FormulaTree) → IsList table.old list fs → slice_get (nodes table.old) field ≡ Some (of_field f) → ArePaired (IsFormula table.old) goals.old.items gs → OnOk result (ArePaired (IsFormula table.new) goals.new.items (gs ++ apart_from f (fields_from from fs))) }
    ensures grows { Extends table.old table.new }
{
    for index in from..usize::MAX {
        match field_of(table, list, index) {
            None => return Ok(()),
            Some(other) => {
                let goal = apart(table, field, other)?;
                goals.push(goal)?;
            }
        }
    }
    Err(NoMemory)
}

/// Adds the goals that no two fields lead to one object.
fn add_all_apart(table: &mut Table, goals: &mut Vec<usize>, list: usize) -> Result<(), NoMemory>
    requires list { IsList table.old list (list_at table.old list) }
    ensures goals { (fs : FieldTrees) (gs : List FormulaTree) → IsList table.old list fs → ArePaired (IsFormula table.old) goals.old.items gs → OnOk result (ArePaired (IsFormula table.new) goals.new.items (gs ++ all_apart fs)) }
    ensures grows { Extends table.old table.new }
{
    for index in 0..usize::MAX {
        match field_of(table, list, index) {
            None => return Ok(()),
            Some(field) => add_apart_from(table, goals, list, field, index + 1)?,
        }
    }
    Err(NoMemory)
}

/// The nodes of the goals of `tree`, in order.
pub(crate) fn forest_goals(table: &mut Table, node: usize) -> Result<Vec<usize>, NoMemory>
    requires there { is_truth (slice_get (nodes table.old) node) ≡ true }
    ensures goals { (fs : FieldTrees) → IsFormula table.old node (t.tree fs) → IfOk result (λ made. ArePaired (IsFormula table.new) made.items (forest_goals fs)) }
    ensures grows { Extends table.old table.new }
{
    let Shape::Tree(list) = table.shape(node) else {
        return Err(NoMemory);
    };
    let mut goals = Vec::new(table.alloc());
    add_cycles(table, &mut goals, list)?;
    add_sources(table, &mut goals, list)?;
    add_all_apart(table, &mut goals, list)?;
    Ok(goals)
}
