// Written by tools/reach.py.
#![tactic(auto)]

ghost use Rattle.std.specs.Prelude.{◌≡◌, ◌++◌, List, map, IfOk, Some, slice_get};
ghost use Rattle.jh_form.specs.Tree.{TermTree, FieldTree, FormulaTree, of_object, of_field, of_truth};
ghost use Rattle.jh_form.specs.Tree as t;
ghost use Rattle.jh_arena.specs.table.Growth.{Extends};
ghost use Rattle.jh_arena.specs.table.Nodes.{nodes};
ghost use Rattle.jh_import.specs.entering.Entered.{IsList};
ghost use Rattle.jh_path_formulas.specs.Ways.{listed, child, differ, way, forest, stops_at, leaves_out, HoldsField, HoldsObject, HoldsFormula, list_at};

use jh_arena::table::{Shape, Table};
use jh_form::jh_name::NoMemory;

/// The node of that an object isn't null.
pub fn not_null(table: &mut Table, object: usize) -> Result<usize, NoMemory>
    requires object { HoldsObject table.old object }
    ensures node { (a : TermTree) → slice_get (nodes table.old) object ≡ Some (of_object a) → IfOk result (λ made. slice_get (nodes table.new) made ≡ Some (of_truth (differ a t.null))) }
    ensures grows { Extends table.old table.new }
{
    let null = table.make(Shape::Null)?;
    let same = table.make(Shape::EqObject(object, null))?;
    table.make(Shape::Negation(same))
}

/// The node of that y is reached from x by a way that doesn't go on from an object.
pub fn stops_at(
    table: &mut Table,
    list: usize,
    at: usize,
    from: usize,
    to: usize,
) -> Result<usize, NoMemory>
    requires list { IsList table.old list (list_at table.old list) }
    requires at { HoldsObject table.old at }
    requires from { HoldsObject table.old from }
    requires to { HoldsObject table.old to }
    ensures node { (fs : List FieldTree) (a : TermTree) (x : TermTree) (y : TermTree) → IsList table.old list (listed fs) → slice_get (nodes table.old) at ≡ Some (of_object a) → slice_get (nodes table.old) from ≡ Some (of_object x) → slice_get (nodes table.old) to ≡ Some (of_object y) → IfOk result (λ made. slice_get (nodes table.new) made ≡ Some (of_truth (stops_at fs a x y))) }
    ensures grows { Extends table.old table.new }
{
    let on = table.make(Shape::Reach(list, from, to))?;
    let before = table.make(Shape::Reach(list, from, at))?;
    let after = table.make(Shape::Reach(list, to, at))?;
    let stops = table.make(Shape::Implies(before, after))?;
    table.make(Shape::And(on, stops))
}

/// The node of that an edge is on a way from x to y.
fn goes_through(
    table: &mut Table,
    list: usize,
    field: usize,
    at: usize,
    from: usize,
    to: usize,
) -> Result<usize, NoMemory>
    requires list { IsList table.old list (list_at table.old list) }
    requires field { HoldsField table.old field }
    requires at { HoldsObject table.old at }
    requires from { HoldsObject table.old from }
    requires to { HoldsObject table.old to }
    ensures node { (fs : List FieldTree) (f : FieldTree) (a : TermTree) (x : TermTree) (y : TermTree) → IsList table.old list (listed fs) → slice_get (nodes table.old) field ≡ Some (of_field f) → slice_get (nodes table.old) at ≡ Some (of_object a) → slice_get (nodes table.old) from ≡ Some (of_object x) → slice_get (nodes table.old) to ≡ Some (of_object y) → IfOk result (λ made. slice_get (nodes table.new) made ≡ Some (of_truth (t.and (differ (child f a) t.null) (t.and (way fs x a) (way fs (child f a) y))))) }
    ensures grows { Extends table.old table.new }
{
    let child = table.make(Shape::ReadObject(field, at))?;
    let differs = not_null(table, child)?;
    let before = table.make(Shape::Reach(list, from, at))?;
    let after = table.make(Shape::Reach(list, child, to))?;
    let both = table.make(Shape::And(before, after))?;
    table.make(Shape::And(differs, both))
}

/// The node of that y is reached from x by a way that leaves out an edge.
pub fn leaves_out(
    table: &mut Table,
    list: usize,
    field: usize,
    at: usize,
    from: usize,
    to: usize,
) -> Result<usize, NoMemory>
    requires list { IsList table.old list (list_at table.old list) }
    requires field { HoldsField table.old field }
    requires at { HoldsObject table.old at }
    requires from { HoldsObject table.old from }
    requires to { HoldsObject table.old to }
    ensures node { (fs : List FieldTree) (f : FieldTree) (a : TermTree) (x : TermTree) (y : TermTree) → IsList table.old list (listed fs) → slice_get (nodes table.old) field ≡ Some (of_field f) → slice_get (nodes table.old) at ≡ Some (of_object a) → slice_get (nodes table.old) from ≡ Some (of_object x) → slice_get (nodes table.old) to ≡ Some (of_object y) → IfOk result (λ made. slice_get (nodes table.new) made ≡ Some (of_truth (leaves_out fs f a x y))) }
    ensures grows { Extends table.old table.new }
{
    let on = table.make(Shape::Reach(list, from, to))?;
    let through = goes_through(table, list, field, at, from, to)?;
    let around = table.make(Shape::Negation(through))?;
    table.make(Shape::And(on, around))
}

/// The node of that fields are a forest, and of what is said beside that.
pub fn in_forest(table: &mut Table, list: usize, beside: usize) -> Result<usize, NoMemory>
    requires list { IsList table.old list (list_at table.old list) }
    requires beside { HoldsFormula table.old beside }
    ensures node { (fs : List FieldTree) (b : FormulaTree) → IsList table.old list (listed fs) → slice_get (nodes table.old) beside ≡ Some (of_truth b) → IfOk result (λ made. slice_get (nodes table.new) made ≡ Some (of_truth (t.and (forest fs) b))) }
    ensures grows { Extends table.old table.new }
{
    let trees = table.make(Shape::Tree(list))?;
    table.make(Shape::And(trees, beside))
}
