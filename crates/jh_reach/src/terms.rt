// Written by tools/reach.py.
#![tactic(auto)]

ghost use Rattle.std.specs.Prelude.{◌≡◌, ◌++◌, List, map, IfOk, Some, slice_get};
ghost use Rattle.jh_form.specs.Tree.{TermTree, FieldTree, FormulaTree, of_object, of_field, of_truth};
ghost use Rattle.jh_form.specs.Tree as t;
ghost use Rattle.jh_arena.specs.table.Growth.{Extends};
ghost use Rattle.jh_arena.specs.table.Nodes.{nodes};
ghost use Rattle.jh_import.specs.entering.Entered.{IsList};
ghost use Rattle.jh_arena.specs.makers.Joined.{joined};
ghost use Rattle.jh_path_formulas.specs.Ways.{listed, child, differ, way, forest, stops_at, leaves_out, HoldsField, HoldsObject, HoldsFormula, list_at};
ghost use Rattle.jh_reach.specs.Axioms.{disjoined, end_at_null, ends_at_null, reaches_child, child_reaches, leads_there, leads_not_back, has_one_parent, share_no_child, pairs_share_no_child, reach_itself, reach_children, first_step, last_step, ways_join, ways_on, ways_up, null_reaches_null, no_way_back, one_parent, changed_ways, first_of_list, last_of_list};
ghost use Rattle.jh_reach.specs.Standing.{AreFields, AreFormulas, IsAlong};

use jh_arena::table::{Shape, Table};
use jh_name::NoMemory;

/// The node of the object to which a field leads from a bound variable.
pub fn child_of(table: &mut Table, field: usize, variable: u32) -> Result<usize, NoMemory>
    requires field { HoldsField table.old field }
    ensures node { (f : FieldTree) → slice_get (nodes table.old) field ≡ Some (of_field f) → IfOk result (λ made. slice_get (nodes table.new) made ≡ Some (of_object (child f (t.bound variable)))) }
    ensures grows { Extends table.old table.new }
{
    let object = table.make(Shape::Bound(variable))?;
    table.make(Shape::ReadObject(field, object))
}

/// The node of that two bound variables are one object.
pub fn one_object(table: &mut Table, left: u32, right: u32) -> Result<usize, NoMemory>
    ensures node { IfOk result (λ made. slice_get (nodes table.new) made ≡ Some (of_truth (t.eq_object (t.bound left) (t.bound right)))) }
    ensures grows { Extends table.old table.new }
{
    let first = table.make(Shape::Bound(left))?;
    let second = table.make(Shape::Bound(right))?;
    table.make(Shape::EqObject(first, second))
}

/// The node of that one bound variable reaches another.
pub fn way(table: &mut Table, list: usize, from: u32, to: u32) -> Result<usize, NoMemory>
    requires list { IsList table.old list (list_at table.old list) }
    ensures node { (fs : List FieldTree) → IsList table.old list (listed fs) → IfOk result (λ made. slice_get (nodes table.new) made ≡ Some (of_truth (way fs (t.bound from) (t.bound to)))) }
    ensures grows { Extends table.old table.new }
{
    let first = table.make(Shape::Bound(from))?;
    let second = table.make(Shape::Bound(to))?;
    table.make(Shape::Reach(list, first, second))
}

/// The node of a formula said of two objects.
pub fn for_two(table: &mut Table, body: usize) -> Result<usize, NoMemory>
    requires body { HoldsFormula table.old body }
    ensures node { (a : FormulaTree) → slice_get (nodes table.old) body ≡ Some (of_truth a) → IfOk result (λ made. slice_get (nodes table.new) made ≡ Some (of_truth (t.all (t.all a)))) }
    ensures grows { Extends table.old table.new }
{
    let inner = table.make(Shape::All(body))?;
    table.make(Shape::All(inner))
}

/// The node of that a formula follows from another, said of two objects.
pub fn follows_for_two(table: &mut Table, premise: usize, end: usize) -> Result<usize, NoMemory>
    requires premise { HoldsFormula table.old premise }
    requires end { HoldsFormula table.old end }
    ensures node { (a : FormulaTree) (b : FormulaTree) → slice_get (nodes table.old) premise ≡ Some (of_truth a) → slice_get (nodes table.old) end ≡ Some (of_truth b) → IfOk result (λ made. slice_get (nodes table.new) made ≡ Some (of_truth (t.all (t.all (t.implies a b))))) }
    ensures grows { Extends table.old table.new }
{
    let body = table.make(Shape::Implies(premise, end))?;
    for_two(table, body)
}

/// The node of that a formula follows from another, said of three objects.
pub fn follows_for_three(table: &mut Table, premise: usize, end: usize) -> Result<usize, NoMemory>
    requires premise { HoldsFormula table.old premise }
    requires end { HoldsFormula table.old end }
    ensures node { (a : FormulaTree) (b : FormulaTree) → slice_get (nodes table.old) premise ≡ Some (of_truth a) → slice_get (nodes table.old) end ≡ Some (of_truth b) → IfOk result (λ made. slice_get (nodes table.new) made ≡ Some (of_truth (t.all (t.all (t.all (t.implies a b)))))) }
    ensures grows { Extends table.old table.new }
{
    let two = follows_for_two(table, premise, end)?;
    table.make(Shape::All(two))
}
