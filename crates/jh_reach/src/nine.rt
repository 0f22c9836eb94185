// Written by tools/reach.py.
#![tactic(auto)]

ghost use Rattle.std.specs.Prelude.{◌≡◌, ◌++◌, List, map, IfOk, Some, slice_get};
ghost use Rattle.jh_form.specs.Tree.{TermTree, FieldTree, FormulaTree, of_object, of_field, of_truth};
ghost use Rattle.jh_form.specs.Tree as t;
ghost use Rattle.jh_arena.specs.table.Growth.{Extends};
ghost use Rattle.jh_arena.specs.table.Nodes.{nodes};
ghost use Rattle.jh_import.specs.entering.Entered.{IsList};
ghost use Rattle.jh_arena.specs.makers.Joined.{joined};
ghost use Rattle.jh_path_formulas.specs.Ways.{listed, child, differ, way, forest, stops_at, leaves_out, HoldsField, HoldsObject, HoldsFormula, list_at};
ghost use Rattle.jh_reach.specs.Axioms.{disjoined, end_at_null, ends_at_null, reaches_child, child_reaches, leads_there, leads_not_back, has_one_parent, share_no_child, pairs_share_no_child, reach_itself, reach_children, first_step, last_step, ways_join, ways_on, ways_up, null_reaches_null, no_way_back, one_parent, changed_ways, first_of_list, last_of_list};
ghost use Rattle.jh_reach.specs.Standing.{AreFields, AreFormulas, IsAlong};

use crate::lists::{each, parents, some};
use crate::parts::Part;
use crate::terms::{follows_for_three, follows_for_two, for_two, one_object, way};
use jh_arena::table::{Shape, Table};
use jh_name::NoMemory;
use jh_path_formulas::{in_forest, not_null};

/// The node of that each object reaches itself.
pub fn reach_itself(table: &mut Table, list: usize) -> Result<usize, NoMemory>
    requires list { IsList table.old list (list_at table.old list) }
    ensures node { (fs : List FieldTree) → IsList table.old list (listed fs) → IfOk result (λ made. slice_get (nodes table.new) made ≡ Some (of_truth (reach_itself fs))) }
    ensures grows { Extends table.old table.new }
{
    let body = way(table, list, 0, 0)?;
    table.make(Shape::All(body))
}

/// The node of that each object reaches its children.
pub fn reach_children(table: &mut Table, list: usize, fields: &[usize]) -> Result<usize, NoMemory>
    requires along { IsAlong table.old list fields.now }
    ensures node { (fs : List FieldTree) → AreFields table.old fields.now fs → IfOk result (λ made. slice_get (nodes table.new) made ≡ Some (of_truth (reach_children fs))) }
    ensures grows { Extends table.old table.new }
{
    let body = each(table, list, fields, Part::ReachesChild)?;
    table.make(Shape::All(body))
}

/// The node of that x is y, or some child of x reaches y.
fn begins(table: &mut Table, list: usize, fields: &[usize]) -> Result<usize, NoMemory>
    requires along { IsAlong table.old list fields.now }
    ensures node { (fs : List FieldTree) → AreFields table.old fields.now fs → IfOk result (λ made. slice_get (nodes table.new) made ≡ Some (of_truth (t.or (t.eq_object (t.bound 1) (t.bound 0)) (disjoined (map (child_reaches fs) fs))))) }
    ensures grows { Extends table.old table.new }
{
    let same = one_object(table, 1, 0)?;
    let step = some(table, list, fields, Part::ChildReaches)?;
    table.make(Shape::Or(same, step))
}

/// The node of that a way is no step or begins with one.
pub fn first_step(table: &mut Table, list: usize, fields: &[usize]) -> Result<usize, NoMemory>
    requires along { IsAlong table.old list fields.now }
    ensures node { (fs : List FieldTree) → AreFields table.old fields.now fs → IfOk result (λ made. slice_get (nodes table.new) made ≡ Some (of_truth (first_step fs))) }
    ensures grows { Extends table.old table.new }
{
    let premise = way(table, list, 1, 0)?;
    let end = begins(table, list, fields)?;
    follows_for_two(table, premise, end)
}

/// The node of that x reaches an object from which some field leads to y.
fn last_object(table: &mut Table, list: usize, fields: &[usize]) -> Result<usize, NoMemory>
    requires along { IsAlong table.old list fields.now }
    ensures node { (fs : List FieldTree) → AreFields table.old fields.now fs → IfOk result (λ made. slice_get (nodes table.new) made ≡ Some (of_truth (t.ex (t.and (way fs (t.bound 2) (t.bound 0)) (disjoined (map leads_there fs)))))) }
    ensures grows { Extends table.old table.new }
{
    let to = way(table, list, 2, 0)?;
    let step = some(table, list, fields, Part::LeadsThere)?;
    let body = table.make(Shape::And(to, step))?;
    table.make(Shape::Ex(body))
}

/// The node of that x is y, or reaches an object from which some field leads to y.
fn ends(table: &mut Table, list: usize, fields: &[usize]) -> Result<usize, NoMemory>
    requires along { IsAlong table.old list fields.now }
    ensures node { (fs : List FieldTree) → AreFields table.old fields.now fs → IfOk result (λ made. slice_get (nodes table.new) made ≡ Some (of_truth (t.or (t.eq_object (t.bound 1) (t.bound 0)) (t.ex (t.and (way fs (t.bound 2) (t.bound 0)) (disjoined (map leads_there fs))))))) }
    ensures grows { Extends table.old table.new }
{
    let same = one_object(table, 1, 0)?;
    let step = last_object(table, list, fields)?;
    table.make(Shape::Or(same, step))
}

/// The node of that a way is no step or ends with one.
pub fn last_step(table: &mut Table, list: usize, fields: &[usize]) -> Result<usize, NoMemory>
    requires along { IsAlong table.old list fields.now }
    ensures node { (fs : List FieldTree) → AreFields table.old fields.now fs → IfOk result (λ made. slice_get (nodes table.new) made ≡ Some (of_truth (last_step fs))) }
    ensures grows { Extends table.old table.new }
{
    let premise = way(table, list, 1, 0)?;
    let end = ends(table, list, fields)?;
    follows_for_two(table, premise, end)
}

/// The node of that ways join.
pub fn ways_join(table: &mut Table, list: usize) -> Result<usize, NoMemory>
    requires list { IsList table.old list (list_at table.old list) }
    ensures node { (fs : List FieldTree) → IsList table.old list (listed fs) → IfOk result (λ made. slice_get (nodes table.new) made ≡ Some (of_truth (ways_join fs))) }
    ensures grows { Extends table.old table.new }
{
    let first = way(table, list, 2, 1)?;
    let second = way(table, list, 1, 0)?;
    let premise = table.make(Shape::And(first, second))?;
    let end = way(table, list, 2, 0)?;
    follows_for_three(table, premise, end)
}

/// The node of that one of two bound variables reaches the other.
fn either_way(table: &mut Table, list: usize, left: u32, right: u32) -> Result<usize, NoMemory>
    requires list { IsList table.old list (list_at table.old list) }
    ensures node { (fs : List FieldTree) → IsList table.old list (listed fs) → IfOk result (λ made. slice_get (nodes table.new) made ≡ Some (of_truth (t.or (way fs (t.bound left) (t.bound right)) (way fs (t.bound right) (t.bound left))))) }
    ensures grows { Extends table.old table.new }
{
    let on = way(table, list, left, right)?;
    let back = way(table, list, right, left)?;
    table.make(Shape::Or(on, back))
}

/// The node of that of two objects that one reaches along one field one reaches the other.
pub fn ways_on(table: &mut Table, list: usize) -> Result<usize, NoMemory>
    requires list { IsList table.old list (list_at table.old list) }
    ensures node { (fs : List FieldTree) → IsList table.old list (listed fs) → IfOk result (λ made. slice_get (nodes table.new) made ≡ Some (of_truth (ways_on fs))) }
    ensures grows { Extends table.old table.new }
{
    let first = way(table, list, 2, 1)?;
    let second = way(table, list, 2, 0)?;
    let premise = table.make(Shape::And(first, second))?;
    let end = either_way(table, list, 1, 0)?;
    follows_for_three(table, premise, end)
}

/// The node of that two ways lead to an object that isn't null.
fn ways_meet(table: &mut Table, list: usize) -> Result<usize, NoMemory>
    requires list { IsList table.old list (list_at table.old list) }
    ensures node { (fs : List FieldTree) → IsList table.old list (listed fs) → IfOk result (λ made. slice_get (nodes table.new) made ≡ Some (of_truth (t.and (way fs (t.bound 2) (t.bound 0)) (t.and (way fs (t.bound 1) (t.bound 0)) (differ (t.bound 0) t.null))))) }
    ensures grows { Extends table.old table.new }
{
    let first = way(table, list, 2, 0)?;
    let second = way(table, list, 1, 0)?;
    let object = table.make(Shape::Bound(0))?;
    let differs = not_null(table, object)?;
    let rest = table.make(Shape::And(second, differs))?;
    table.make(Shape::And(first, rest))
}

/// The node of that of two objects that reach one that isn't null one reaches the other.
fn ways_behind(table: &mut Table, list: usize) -> Result<usize, NoMemory>
    requires list { IsList table.old list (list_at table.old list) }
    ensures node { (fs : List FieldTree) → IsList table.old list (listed fs) → IfOk result (λ made. slice_get (nodes table.new) made ≡ Some (of_truth (t.all (t.all (t.all (t.implies (t.and (way fs (t.bound 2) (t.bound 0)) (t.and (way fs (t.bound 1) (t.bound 0)) (differ (t.bound 0) t.null))) (t.or (way fs (t.bound 2) (t.bound 1)) (way fs (t.bound 1) (t.bound 2))))))))) }
    ensures grows { Extends table.old table.new }
{
    let premise = ways_meet(table, list)?;
    let end = either_way(table, list, 2, 1)?;
    follows_for_three(table, premise, end)
}

/// The node of that the fields are a forest and lead from null to null.
fn ends_in_forest(table: &mut Table, list: usize, fields: &[usize]) -> Result<usize, NoMemory>
    requires along { IsAlong table.old list fields.now }
    ensures node { (fs : List FieldTree) → AreFields table.old fields.now fs → IfOk result (λ made. slice_get (nodes table.new) made ≡ Some (of_truth (t.and (forest fs) (end_at_null fs)))) }
    ensures grows { Extends table.old table.new }
{
    let null = each(table, list, fields, Part::EndsAtNull)?;
    in_forest(table, list, null)
}

/// The node of that in a forest, of two objects that reach one that isn't null, one reaches the other.
pub fn ways_up(table: &mut Table, list: usize, fields: &[usize]) -> Result<usize, NoMemory>
    requires along { IsAlong table.old list fields.now }
    ensures node { (fs : List FieldTree) → AreFields table.old fields.now fs → IfOk result (λ made. slice_get (nodes table.new) made ≡ Some (of_truth (ways_up fs))) }
    ensures grows { Extends table.old table.new }
{
    let premise = ends_in_forest(table, list, fields)?;
    let end = ways_behind(table, list)?;
    table.make(Shape::Implies(premise, end))
}

/// The node of that what null reaches is null.
fn only_null(table: &mut Table, list: usize) -> Result<usize, NoMemory>
    requires list { IsList table.old list (list_at table.old list) }
    ensures node { (fs : List FieldTree) → IsList table.old list (listed fs) → IfOk result (λ made. slice_get (nodes table.new) made ≡ Some (of_truth (t.all (t.implies (way fs t.null (t.bound 0)) (t.eq_object (t.bound 0) t.null))))) }
    ensures grows { Extends table.old table.new }
{
    let null = table.make(Shape::Null)?;
    let object = table.make(Shape::Bound(0))?;
    let premise = table.make(Shape::Reach(list, null, object))?;
    let end = table.make(Shape::EqObject(object, null))?;
    let body = table.make(Shape::Implies(premise, end))?;
    table.make(Shape::All(body))
}

/// The node of that null reaches null alone where each field leads from null to null.
pub fn null_reaches_null(
    table: &mut Table,
    list: usize,
    fields: &[usize],
) -> Result<usize, NoMemory>
    requires along { IsAlong table.old list fields.now }
    ensures node { (fs : List FieldTree) → AreFields table.old fields.now fs → IfOk result (λ made. slice_get (nodes table.new) made ≡ Some (of_truth (null_reaches_null fs))) }
    ensures grows { Extends table.old table.new }
{
    let premise = each(table, list, fields, Part::EndsAtNull)?;
    let end = only_null(table, list)?;
    table.make(Shape::Implies(premise, end))
}

/// The node of that no object but null is reached from its children.
fn reached_by_none(table: &mut Table, list: usize, fields: &[usize]) -> Result<usize, NoMemory>
    requires along { IsAlong table.old list fields.now }
    ensures node { (fs : List FieldTree) → AreFields table.old fields.now fs → IfOk result (λ made. slice_get (nodes table.new) made ≡ Some (of_truth (t.all (t.implies (differ (t.bound 0) t.null) (joined (map (leads_not_back fs) fs)))))) }
    ensures grows { Extends table.old table.new }
{
    let object = table.make(Shape::Bound(0))?;
    let premise = not_null(table, object)?;
    let end = each(table, list, fields, Part::LeadsNotBack)?;
    let body = table.make(Shape::Implies(premise, end))?;
    table.make(Shape::All(body))
}

/// The node of that in a forest no object but null is reached from its children.
pub fn no_way_back(table: &mut Table, list: usize, fields: &[usize]) -> Result<usize, NoMemory>
    requires along { IsAlong table.old list fields.now }
    ensures node { (fs : List FieldTree) → AreFields table.old fields.now fs → IfOk result (λ made. slice_get (nodes table.new) made ≡ Some (of_truth (no_way_back fs))) }
    ensures grows { Extends table.old table.new }
{
    let premise = table.make(Shape::Tree(list))?;
    let end = reached_by_none(table, list, fields)?;
    table.make(Shape::Implies(premise, end))
}

/// The node of that in a forest an object that isn't null has one parent, along one field.
pub fn one_parent(table: &mut Table, list: usize, fields: &[usize]) -> Result<usize, NoMemory>
    requires along { IsAlong table.old list fields.now }
    ensures node { (fs : List FieldTree) → AreFields table.old fields.now fs → IfOk result (λ made. slice_get (nodes table.new) made ≡ Some (of_truth (one_parent fs))) }
    ensures grows { Extends table.old table.new }
{
    let premise = table.make(Shape::Tree(list))?;
    let body = parents(table, list, fields)?;
    let end = for_two(table, body)?;
    table.make(Shape::Implies(premise, end))
}
