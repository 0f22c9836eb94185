// Written by tools/reach.py.
#![tactic(auto)]

ghost use Rattle.std.specs.Prelude.{◌≡◌, ◌++◌, List, map, IfOk, Some, slice_get};
ghost use Rattle.jh_form.specs.Tree.{TermTree, FieldTree, FormulaTree, of_object, of_field, of_truth};
ghost use Rattle.jh_form.specs.Tree as t;
ghost use Rattle.jh_arena.specs.table.Growth.{Extends};
ghost use Rattle.jh_arena.specs.table.Nodes.{nodes};
ghost use Rattle.jh_import.specs.entering.Entered.{IsList};
ghost use Rattle.jh_arena.specs.makers.Joined.{joined};
ghost use Rattle.jh_path_formulas.specs.Ways.{listed, child, differ, way, forest, stops_at, leaves_out, HoldsField, HoldsObject, HoldsFormula, list_at};
ghost use Rattle.jh_reach.specs.Axioms.{disjoined, end_at_null, ends_at_null, reaches_child, child_reaches, leads_there, leads_not_back, has_one_parent, share_no_child, pairs_share_no_child, reach_itself, reach_children, first_step, last_step, ways_join, ways_on, ways_up, null_reaches_null, no_way_back, one_parent, changed_ways, first_of_list, last_of_list};
ghost use Rattle.jh_reach.specs.Standing.{AreFields, AreFormulas, IsAlong};

use crate::lists::each;
use crate::parts::Part;
use crate::terms::{follows_for_two, for_two};
use jh_arena::table::{Shape, Table};
use jh_name::NoMemory;
use jh_path_formulas::{in_forest, leaves_out, not_null, stops_at};

/// The node of what the ways along one field are, by those before an update.
fn ways_before(
    table: &mut Table,
    list: usize,
    at: usize,
    value: usize,
    from: usize,
    to: usize,
) -> Result<usize, NoMemory>
    requires list { IsList table.old list (list_at table.old list) }
    requires at { HoldsObject table.old at }
    requires value { HoldsObject table.old value }
    requires from { HoldsObject table.old from }
    requires to { HoldsObject table.old to }
    ensures node { (fs : List FieldTree) (a : TermTree) (v : TermTree) (x : TermTree) (y : TermTree) → IsList table.old list (listed fs) → slice_get (nodes table.old) at ≡ Some (of_object a) → slice_get (nodes table.old) value ≡ Some (of_object v) → slice_get (nodes table.old) from ≡ Some (of_object x) → slice_get (nodes table.old) to ≡ Some (of_object y) → IfOk result (λ made. slice_get (nodes table.new) made ≡ Some (of_truth (t.or (stops_at fs a x y) (t.and (way fs x a) (stops_at fs a v y))))) }
    ensures grows { Extends table.old table.new }
{
    let kept = stops_at(table, list, at, from, to)?;
    let before = table.make(Shape::Reach(list, from, at))?;
    let after = stops_at(table, list, at, value, to)?;
    let through = table.make(Shape::And(before, after))?;
    table.make(Shape::Or(kept, through))
}

/// The node of that a way to an object that changed goes on from its new child.
fn goes_on(
    table: &mut Table,
    list: usize,
    field: usize,
    at: usize,
    value: usize,
    from: usize,
    to: usize,
) -> Result<usize, NoMemory>
    requires list { IsList table.old list (list_at table.old list) }
    requires field { HoldsField table.old field }
    requires at { HoldsObject table.old at }
    requires value { HoldsObject table.old value }
    requires from { HoldsObject table.old from }
    requires to { HoldsObject table.old to }
    ensures node { (fs : List FieldTree) (f : FieldTree) (a : TermTree) (v : TermTree) (x : TermTree) (y : TermTree) → IsList table.old list (listed fs) → slice_get (nodes table.old) field ≡ Some (of_field f) → slice_get (nodes table.old) at ≡ Some (of_object a) → slice_get (nodes table.old) value ≡ Some (of_object v) → slice_get (nodes table.old) from ≡ Some (of_object x) → slice_get (nodes table.old) to ≡ Some (of_object y) → IfOk result (λ made. slice_get (nodes table.new) made ≡ Some (of_truth (t.and (way fs x a) (t.and (differ v t.null) (leaves_out fs f a v y))))) }
    ensures grows { Extends table.old table.new }
{
    let before = table.make(Shape::Reach(list, from, at))?;
    let differs = not_null(table, value)?;
    let after = leaves_out(table, list, field, at, value, to)?;
    let rest = table.make(Shape::And(differs, after))?;
    table.make(Shape::And(before, rest))
}

/// The node of what the ways along several fields are, by those before an update.
fn ways_around(
    table: &mut Table,
    list: usize,
    field: usize,
    at: usize,
    value: usize,
    from: usize,
    to: usize,
) -> Result<usize, NoMemory>
    requires list { IsList table.old list (list_at table.old list) }
    requires field { HoldsField table.old field }
    requires at { HoldsObject table.old at }
    requires value { HoldsObject table.old value }
    requires from { HoldsObject table.old from }
    requires to { HoldsObject table.old to }
    ensures node { (fs : List FieldTree) (f : FieldTree) (a : TermTree) (v : TermTree) (x : TermTree) (y : TermTree) → IsList table.old list (listed fs) → slice_get (nodes table.old) field ≡ Some (of_field f) → slice_get (nodes table.old) at ≡ Some (of_object a) → slice_get (nodes table.old) value ≡ Some (of_object v) → slice_get (nodes table.old) from ≡ Some (of_object x) → slice_get (nodes table.old) to ≡ Some (of_object y) → IfOk result (λ made. slice_get (nodes table.new) made ≡ Some (of_truth (t.or (leaves_out fs f a x y) (t.and (way fs x a) (t.and (differ v t.null) (leaves_out fs f a v y)))))) }
    ensures grows { Extends table.old table.new }
{
    let kept = leaves_out(table, list, field, at, from, to)?;
    let through = goes_on(table, list, field, at, value, from, to)?;
    table.make(Shape::Or(kept, through))
}

/// The node of that the new ways along one field are told by the old ones.
pub fn told_by_one(
    table: &mut Table,
    new: usize,
    old: usize,
    at: usize,
    value: usize,
) -> Result<usize, NoMemory>
    requires new { IsList table.old new (list_at table.old new) }
    requires old { IsList table.old old (list_at table.old old) }
    requires at { HoldsObject table.old at }
    requires value { HoldsObject table.old value }
    ensures node { (fs : List FieldTree) (gs : List FieldTree) (a : TermTree) (v : TermTree) → IsList table.old new (listed fs) → IsList table.old old (listed gs) → slice_get (nodes table.old) at ≡ Some (of_object a) → slice_get (nodes table.old) value ≡ Some (of_object v) → IfOk result (λ made. slice_get (nodes table.new) made ≡ Some (of_truth (t.all (t.all (t.iff (way fs (t.bound 1) (t.bound 0)) (t.or (stops_at gs a (t.bound 1) (t.bound 0)) (t.and (way gs (t.bound 1) a) (stops_at gs a v (t.bound 0))))))))) }
    ensures grows { Extends table.old table.new }
{
    let from = table.make(Shape::Bound(1))?;
    let to = table.make(Shape::Bound(0))?;
    let on = table.make(Shape::Reach(new, from, to))?;
    let ways = ways_before(table, old, at, value, from, to)?;
    let body = table.make(Shape::Iff(on, ways))?;
    for_two(table, body)
}

/// The node of that the new ways along several fields are told by the old ones.
pub fn told_by_several(
    table: &mut Table,
    new: usize,
    old: usize,
    field: usize,
    at: usize,
    value: usize,
) -> Result<usize, NoMemory>
    requires new { IsList table.old new (list_at table.old new) }
    requires old { IsList table.old old (list_at table.old old) }
    requires field { HoldsField table.old field }
    requires at { HoldsObject table.old at }
    requires value { HoldsObject table.old value }
    ensures node { (fs : List FieldTree) (gs : List FieldTree) (f : FieldTree) (a : TermTree) (v : TermTree) → IsList table.old new (listed fs) → IsList table.old old (listed gs) → slice_get (nodes table.old) field ≡ Some (of_field f) → slice_get (nodes table.old) at ≡ Some (of_object a) → slice_get (nodes table.old) value ≡ Some (of_object v) → IfOk result (λ made. slice_get (nodes table.new) made ≡ Some (of_truth (t.all (t.all (t.implies (differ (t.bound 0) t.null) (t.iff (way fs (t.bound 1) (t.bound 0)) (t.or (leaves_out gs f a (t.bound 1) (t.bound 0)) (t.and (way gs (t.bound 1) a) (t.and (differ v t.null) (leaves_out gs f a v (t.bound 0))))))))))) }
    ensures grows { Extends table.old table.new }
{
    let from = table.make(Shape::Bound(1))?;
    let to = table.make(Shape::Bound(0))?;
    let on = table.make(Shape::Reach(new, from, to))?;
    let ways = ways_around(table, old, field, at, value, from, to)?;
    let end = table.make(Shape::Iff(on, ways))?;
    let premise = not_null(table, to)?;
    follows_for_two(table, premise, end)
}

/// The node of that the old fields are a forest and lead from null to null, and the object that changed isn't null.
pub fn before_change(
    table: &mut Table,
    list: usize,
    fields: &[usize],
    at: usize,
) -> Result<usize, NoMemory>
    requires along { IsAlong table.old list fields.now }
    requires at { HoldsObject table.old at }
    ensures node { (fs : List FieldTree) (a : TermTree) → AreFields table.old fields.now fs → slice_get (nodes table.old) at ≡ Some (of_object a) → IfOk result (λ made. slice_get (nodes table.new) made ≡ Some (of_truth (t.and (forest fs) (t.and (end_at_null fs) (differ a t.null))))) }
    ensures grows { Extends table.old table.new }
{
    let null = each(table, list, fields, Part::EndsAtNull)?;
    let differs = not_null(table, at)?;
    let rest = table.make(Shape::And(null, differs))?;
    in_forest(table, list, rest)
}
