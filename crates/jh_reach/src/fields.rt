// Written by tools/reach.py.
#![tactic(auto)]

ghost use Rattle.std.specs.Prelude.{◌≡◌, ◌++◌, List, map, IfOk, Some, slice_get};
ghost use Rattle.jh_form.specs.Tree.{TermTree, FieldTree, FormulaTree, of_object, of_field, of_truth};
ghost use Rattle.jh_form.specs.Tree as t;
ghost use Rattle.jh_arena.specs.table.Growth.{Extends};
ghost use Rattle.jh_arena.specs.table.Nodes.{nodes};
ghost use Rattle.jh_import.specs.entering.Entered.{IsList};
ghost use Rattle.jh_arena.specs.makers.Joined.{joined};
ghost use Rattle.jh_path_formulas.specs.Ways.{listed, child, differ, way, forest, stops_at, leaves_out, HoldsField, HoldsObject, HoldsFormula, list_at};
ghost use Rattle.jh_reach.specs.Axioms.{disjoined, end_at_null, ends_at_null, reaches_child, child_reaches, leads_there, leads_not_back, has_one_parent, share_no_child, pairs_share_no_child, reach_itself, reach_children, first_step, last_step, ways_join, ways_on, ways_up, null_reaches_null, no_way_back, one_parent, changed_ways, first_of_list, last_of_list};
ghost use Rattle.jh_reach.specs.Standing.{AreFields, AreFormulas, IsAlong};

use crate::terms::{child_of, one_object};
use jh_arena::table::{Shape, Table};
use jh_name::NoMemory;
use jh_path_formulas::not_null;

/// The node of that a field leads from null to null.
pub fn ends_at_null(table: &mut Table, field: usize) -> Result<usize, NoMemory>
    requires field { HoldsField table.old field }
    ensures node { (f : FieldTree) → slice_get (nodes table.old) field ≡ Some (of_field f) → IfOk result (λ made. slice_get (nodes table.new) made ≡ Some (of_truth (ends_at_null f))) }
    ensures grows { Extends table.old table.new }
{
    let null = table.make(Shape::Null)?;
    let child = table.make(Shape::ReadObject(field, null))?;
    table.make(Shape::EqObject(child, null))
}

/// The node of that x reaches its child.
pub fn reaches_child(table: &mut Table, list: usize, field: usize) -> Result<usize, NoMemory>
    requires list { IsList table.old list (list_at table.old list) }
    requires field { HoldsField table.old field }
    ensures node { (fs : List FieldTree) (f : FieldTree) → IsList table.old list (listed fs) → slice_get (nodes table.old) field ≡ Some (of_field f) → IfOk result (λ made. slice_get (nodes table.new) made ≡ Some (of_truth (reaches_child fs f))) }
    ensures grows { Extends table.old table.new }
{
    let object = table.make(Shape::Bound(0))?;
    let child = table.make(Shape::ReadObject(field, object))?;
    table.make(Shape::Reach(list, object, child))
}

/// The node of that the child of x reaches y.
pub fn child_reaches(table: &mut Table, list: usize, field: usize) -> Result<usize, NoMemory>
    requires list { IsList table.old list (list_at table.old list) }
    requires field { HoldsField table.old field }
    ensures node { (fs : List FieldTree) (f : FieldTree) → IsList table.old list (listed fs) → slice_get (nodes table.old) field ≡ Some (of_field f) → IfOk result (λ made. slice_get (nodes table.new) made ≡ Some (of_truth (child_reaches fs f))) }
    ensures grows { Extends table.old table.new }
{
    let child = child_of(table, field, 1)?;
    let object = table.make(Shape::Bound(0))?;
    table.make(Shape::Reach(list, child, object))
}

/// The node of that a field leads from w to y.
pub fn leads_there(table: &mut Table, field: usize) -> Result<usize, NoMemory>
    requires field { HoldsField table.old field }
    ensures node { (f : FieldTree) → slice_get (nodes table.old) field ≡ Some (of_field f) → IfOk result (λ made. slice_get (nodes table.new) made ≡ Some (of_truth (leads_there f))) }
    ensures grows { Extends table.old table.new }
{
    let child = child_of(table, field, 0)?;
    let object = table.make(Shape::Bound(1))?;
    table.make(Shape::EqObject(child, object))
}

/// The node of that the child of x doesn't reach x.
pub fn leads_not_back(table: &mut Table, list: usize, field: usize) -> Result<usize, NoMemory>
    requires list { IsList table.old list (list_at table.old list) }
    requires field { HoldsField table.old field }
    ensures node { (fs : List FieldTree) (f : FieldTree) → IsList table.old list (listed fs) → slice_get (nodes table.old) field ≡ Some (of_field f) → IfOk result (λ made. slice_get (nodes table.new) made ≡ Some (of_truth (leads_not_back fs f))) }
    ensures grows { Extends table.old table.new }
{
    let child = child_of(table, field, 0)?;
    let object = table.make(Shape::Bound(0))?;
    let back = table.make(Shape::Reach(list, child, object))?;
    table.make(Shape::Negation(back))
}

/// The node of that a field leads from x and from y to one object that isn't null.
fn one_child(table: &mut Table, field: usize) -> Result<usize, NoMemory>
    requires field { HoldsField table.old field }
    ensures node { (f : FieldTree) → slice_get (nodes table.old) field ≡ Some (of_field f) → IfOk result (λ made. slice_get (nodes table.new) made ≡ Some (of_truth (t.and (t.eq_object (child f (t.bound 1)) (child f (t.bound 0))) (differ (child f (t.bound 1)) t.null)))) }
    ensures grows { Extends table.old table.new }
{
    let first = child_of(table, field, 1)?;
    let second = child_of(table, field, 0)?;
    let same = table.make(Shape::EqObject(first, second))?;
    let differs = not_null(table, first)?;
    table.make(Shape::And(same, differs))
}

/// The node of that a field leads to an object that isn't null from one object only.
pub fn has_one_parent(table: &mut Table, field: usize) -> Result<usize, NoMemory>
    requires field { HoldsField table.old field }
    ensures node { (f : FieldTree) → slice_get (nodes table.old) field ≡ Some (of_field f) → IfOk result (λ made. slice_get (nodes table.new) made ≡ Some (of_truth (has_one_parent f))) }
    ensures grows { Extends table.old table.new }
{
    let child = one_child(table, field)?;
    let parent = one_object(table, 1, 0)?;
    table.make(Shape::Implies(child, parent))
}

/// The node of that two fields lead from x and from y to no object but null.
pub fn share_no_child(table: &mut Table, field: usize, other: usize) -> Result<usize, NoMemory>
    requires field { HoldsField table.old field }
    requires other { HoldsField table.old other }
    ensures node { (f : FieldTree) (g : FieldTree) → slice_get (nodes table.old) field ≡ Some (of_field f) → slice_get (nodes table.old) other ≡ Some (of_field g) → IfOk result (λ made. slice_get (nodes table.new) made ≡ Some (of_truth (share_no_child f g))) }
    ensures grows { Extends table.old table.new }
{
    let first = child_of(table, field, 1)?;
    let second = child_of(table, other, 0)?;
    let same = table.make(Shape::EqObject(first, second))?;
    let null = table.make(Shape::Null)?;
    let none = table.make(Shape::EqObject(first, null))?;
    table.make(Shape::Implies(same, none))
}
