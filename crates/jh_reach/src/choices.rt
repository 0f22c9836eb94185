#![tactic(auto)]

ghost use Rattle.std.specs.Prelude.{◌≡◌, List, IfOk, Some, slice_get};
ghost use Rattle.jh_form.specs.Tree.{TermTree, FieldTree, of_object, of_field, of_truth};
ghost use Rattle.jh_arena.specs.table.Growth.{Extends};
ghost use Rattle.jh_arena.specs.table.Nodes.{nodes};
ghost use Rattle.jh_reach.specs.Axioms.{listed, ways_compare, changed_ways};
ghost use Rattle.jh_reach.specs.Standing.{AreFields, HoldsField, HoldsObject, IsAlong, list_at};
ghost use Rattle.jh_import.specs.entering.Entered.{IsList};

use crate::nine::{ways_on, ways_up};
use crate::updates::{told_by_one, told_by_several};
use jh_arena::table::Table;
use jh_name::NoMemory;

/// The node of that of two objects on ways that meet one reaches the other: along one field, of those that one object
/// reaches, and along several, of those that reach one.
pub fn ways_compare(table: &mut Table, list: usize, fields: &[usize]) -> Result<usize, NoMemory>
    requires along { IsAlong table.old list fields.now }
    ensures node { (fs : List FieldTree) → AreFields table.old fields.now fs → IfOk result (λ made. slice_get (nodes table.new) made ≡ Some (of_truth (ways_compare fs))) }
    ensures grows { Extends table.old table.new }
{
    if fields.len() == 1 {
        ways_on(table, list)
    } else {
        ways_up(table, list, fields)
    }
}

/// The node of that the new ways are told by the old ones, along one field or several: `new` is the list after an
/// update, and `old` that before it.
pub fn changed_ways(
    table: &mut Table,
    new: usize,
    old: usize,
    fields: &[usize],
    field: usize,
    at: usize,
    value: usize,
) -> Result<usize, NoMemory>
    requires new { IsList table.old new (list_at table.old new) }
    requires along { IsAlong table.old old fields.now }
    requires field { HoldsField table.old field }
    requires at { HoldsObject table.old at }
    requires value { HoldsObject table.old value }
    ensures node { (fs gs : List FieldTree) (f : FieldTree) (a v : TermTree) → IsList table.old new (listed fs) → AreFields table.old fields.now gs → slice_get (nodes table.old) field ≡ Some (of_field f) → slice_get (nodes table.old) at ≡ Some (of_object a) → slice_get (nodes table.old) value ≡ Some (of_object v) → IfOk result (λ made. slice_get (nodes table.new) made ≡ Some (of_truth (changed_ways fs gs f a v))) }
    ensures grows { Extends table.old table.new }
{
    if fields.len() == 1 {
        told_by_one(table, new, old, at, value)
    } else {
        told_by_several(table, new, old, field, at, value)
    }
}
