// Written by tools/reach.py.
#![tactic(auto)]

ghost use Rattle.std.specs.Prelude.{◌≡◌, ◌++◌, List, map, IfOk, Some, slice_get};
ghost use Rattle.jh_form.specs.Tree.{TermTree, FieldTree, FormulaTree, of_object, of_field, of_truth};
ghost use Rattle.jh_form.specs.Tree as t;
ghost use Rattle.jh_arena.specs.table.Growth.{Extends};
ghost use Rattle.jh_arena.specs.table.Nodes.{nodes};
ghost use Rattle.jh_import.specs.entering.Entered.{IsList};
ghost use Rattle.jh_arena.specs.makers.Joined.{joined};
ghost use Rattle.jh_path_formulas.specs.Ways.{listed, child, differ, way, forest, stops_at, leaves_out, HoldsField, HoldsObject, HoldsFormula, list_at};
ghost use Rattle.jh_reach.specs.Axioms.{disjoined, end_at_null, ends_at_null, reaches_child, child_reaches, leads_there, leads_not_back, has_one_parent, share_no_child, pairs_share_no_child, reach_itself, reach_children, first_step, last_step, ways_join, ways_on, ways_up, null_reaches_null, no_way_back, one_parent, changed_ways, first_of_list, last_of_list};
ghost use Rattle.jh_reach.specs.Standing.{AreFields, AreFormulas, IsAlong};

use crate::choices::{changed_ways, ways_compare};
use crate::nine::{
    first_step, last_step, no_way_back, null_reaches_null, one_parent, reach_children,
    reach_itself, ways_join,
};
use crate::updates::before_change;
use jh_arena::table::{Shape, Table};
use jh_name::NoMemory;

/// The nodes of the five axioms of a list of fields that say what a way is.
pub fn first_axioms(
    table: &mut Table,
    list: usize,
    fields: &[usize],
) -> Result<[usize; 5], NoMemory>
    requires along { IsAlong table.old list fields.now }
    ensures nodes { (fs : List FieldTree) → AreFields table.old fields.now fs → IfOk result (λ made. AreFormulas table.new made (first_of_list fs)) }
    ensures grows { Extends table.old table.new }
{
    let itself = reach_itself(table, list)?;
    let children = reach_children(table, list, fields)?;
    let first = first_step(table, list, fields)?;
    let last = last_step(table, list, fields)?;
    let join = ways_join(table, list)?;
    Ok([itself, children, first, last, join])
}

/// The nodes of the four axioms of a list of fields that say what ways are in forests and from null.
pub fn last_axioms(table: &mut Table, list: usize, fields: &[usize]) -> Result<[usize; 4], NoMemory>
    requires along { IsAlong table.old list fields.now }
    ensures nodes { (fs : List FieldTree) → AreFields table.old fields.now fs → IfOk result (λ made. AreFormulas table.new made (last_of_list fs)) }
    ensures grows { Extends table.old table.new }
{
    let compare = ways_compare(table, list, fields)?;
    let null = null_reaches_null(table, list, fields)?;
    let back = no_way_back(table, list, fields)?;
    let parent = one_parent(table, list, fields)?;
    Ok([compare, null, back, parent])
}

/// The node of the axiom of an update: `new` is the list after it, and `old` that before it, whose fields are given.
pub fn update_axiom(
    table: &mut Table,
    new: usize,
    old: usize,
    fields: &[usize],
    field: usize,
    at: usize,
    value: usize,
) -> Result<usize, NoMemory>
    requires new { IsList table.old new (list_at table.old new) }
    requires along { IsAlong table.old old fields.now }
    requires field { HoldsField table.old field }
    requires at { HoldsObject table.old at }
    requires value { HoldsObject table.old value }
    ensures node { (fs : List FieldTree) (gs : List FieldTree) (f : FieldTree) (a : TermTree) (v : TermTree) → IsList table.old new (listed fs) → AreFields table.old fields.now gs → slice_get (nodes table.old) field ≡ Some (of_field f) → slice_get (nodes table.old) at ≡ Some (of_object a) → slice_get (nodes table.old) value ≡ Some (of_object v) → IfOk result (λ made. slice_get (nodes table.new) made ≡ Some (of_truth (t.implies (t.and (forest gs) (t.and (end_at_null gs) (differ a t.null))) (changed_ways fs gs f a v)))) }
    ensures grows { Extends table.old table.new }
{
    let premise = before_change(table, old, fields, at)?;
    let end = changed_ways(table, new, old, fields, field, at, value)?;
    table.make(Shape::Implies(premise, end))
}
