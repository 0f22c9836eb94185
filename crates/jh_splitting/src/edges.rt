ghost use Rattle.std.specs.Prelude.{◌≡◌, IfOk, Some, slice_get};
ghost use Rattle.jh_form.specs.Tree.{TermTree, FieldTree, FieldTrees, FormulaTree, of_object, of_field, of_truth};
ghost use Rattle.jh_form.specs.Tree as t;
ghost use Rattle.jh_arena.specs.table.Growth.{Extends};
ghost use Rattle.jh_arena.specs.table.Nodes.{nodes};
ghost use Rattle.jh_import.specs.entering.Entered.{IsList};
ghost use Rattle.jh_seq.specs.splitting.Forests.{no_cycle_at, one_source, apart};
ghost use Rattle.jh_splitting.specs.Edges.{HoldsField, HoldsObject, HoldsFormula, list_at};

use jh_arena::table::{Shape, Table};
use jh_name::NoMemory;

/// The node of the object to which a field leads from a bound variable.
fn child_of(table: &mut Table, field: usize, variable: u32) -> Result<usize, NoMemory>
    requires field { HoldsField table.old field }
    ensures node { (f : FieldTree) → slice_get (nodes table.old) field ≡ Some (of_field f) → IfOk result (λ made. slice_get (nodes table.new) made ≡ Some (of_object (t.read_object f (t.bound variable)))) }
    ensures grows { Extends table.old table.new }
{
    let object = table.make(Shape::Bound(variable))?;
    table.make(Shape::ReadObject(field, object))
}

/// The node of that an object isn't null.
fn not_null(table: &mut Table, object: usize) -> Result<usize, NoMemory>
    requires object { HoldsObject table.old object }
    ensures node { (a : TermTree) → slice_get (nodes table.old) object ≡ Some (of_object a) → IfOk result (λ made. slice_get (nodes table.new) made ≡ Some (of_truth (t.negation (t.eq_object a t.null)))) }
    ensures grows { Extends table.old table.new }
{
    let null = table.make(Shape::Null)?;
    let same = table.make(Shape::EqObject(object, null))?;
    table.make(Shape::Negation(same))
}

/// The node of that a formula follows from another, said of two objects.
fn follows_for_two(table: &mut Table, premise: usize, end: usize) -> Result<usize, NoMemory>
    requires premise { HoldsFormula table.old premise }
    requires end { HoldsFormula table.old end }
    ensures node { (a : FormulaTree) (b : FormulaTree) → slice_get (nodes table.old) premise ≡ Some (of_truth a) → slice_get (nodes table.old) end ≡ Some (of_truth b) → IfOk result (λ made. slice_get (nodes table.new) made ≡ Some (of_truth (t.all (t.all (t.implies a b))))) }
    ensures grows { Extends table.old table.new }
{
    let body = table.make(Shape::Implies(premise, end))?;
    let inner = table.make(Shape::All(body))?;
    table.make(Shape::All(inner))
}

/// The node of that the child of an object doesn't reach it.
fn leads_not_back(table: &mut Table, list: usize, field: usize) -> Result<usize, NoMemory>
    requires list { IsList table.old list (list_at table.old list) }
    requires field { HoldsField table.old field }
    ensures node { (fs : FieldTrees) (f : FieldTree) → IsList table.old list fs → slice_get (nodes table.old) field ≡ Some (of_field f) → IfOk result (λ made. slice_get (nodes table.new) made ≡ Some (of_truth (t.negation (t.reach fs (t.read_object f (t.bound 0)) (t.bound 0))))) }
    ensures grows { Extends table.old table.new }
{
    let child = child_of(table, field, 0)?;
    let object = table.make(Shape::Bound(0))?;
    let back = table.make(Shape::Reach(list, child, object))?;
    table.make(Shape::Negation(back))
}

/// The node of that no object but null is reached from its child.
pub(crate) fn no_cycle(table: &mut Table, list: usize, field: usize) -> Result<usize, NoMemory>
    requires list { IsList table.old list (list_at table.old list) }
    requires field { HoldsField table.old field }
    ensures node { (fs : FieldTrees) (f : FieldTree) → IsList table.old list fs → slice_get (nodes table.old) field ≡ Some (of_field f) → IfOk result (λ made. slice_get (nodes table.new) made ≡ Some (of_truth (no_cycle_at fs f))) }
    ensures grows { Extends table.old table.new }
{
    let object = table.make(Shape::Bound(0))?;
    let premise = not_null(table, object)?;
    let end = leads_not_back(table, list, field)?;
    let body = table.make(Shape::Implies(premise, end))?;
    table.make(Shape::All(body))
}

/// The node of that two objects have one child, which isn't null.
fn one_child(table: &mut Table, field: usize) -> Result<usize, NoMemory>
    requires field { HoldsField table.old field }
    ensures node { (f : FieldTree) → slice_get (nodes table.old) field ≡ Some (of_field f) → IfOk result (λ made. slice_get (nodes table.new) made ≡ Some (of_truth (t.and (t.eq_object (t.read_object f (t.bound 1)) (t.read_object f (t.bound 0))) (t.negation (t.eq_object (t.read_object f (t.bound 1)) t.null))))) }
    ensures grows { Extends table.old table.new }
{
    let first = child_of(table, field, 1)?;
    let second = child_of(table, field, 0)?;
    let same = table.make(Shape::EqObject(first, second))?;
    let differs = not_null(table, first)?;
    table.make(Shape::And(same, differs))
}

/// The node of that no two objects have one child but null.
pub(crate) fn one_source(table: &mut Table, field: usize) -> Result<usize, NoMemory>
    requires field { HoldsField table.old field }
    ensures node { (f : FieldTree) → slice_get (nodes table.old) field ≡ Some (of_field f) → IfOk result (λ made. slice_get (nodes table.new) made ≡ Some (of_truth (one_source f))) }
    ensures grows { Extends table.old table.new }
{
    let premise = one_child(table, field)?;
    let first = table.make(Shape::Bound(1))?;
    let second = table.make(Shape::Bound(0))?;
    let end = table.make(Shape::EqObject(first, second))?;
    follows_for_two(table, premise, end)
}

/// The node of that two fields lead to one object.
fn same_child(table: &mut Table, field: usize, other: usize) -> Result<usize, NoMemory>
    requires field { HoldsField table.old field }
    requires other { HoldsField table.old other }
    ensures node { (f : FieldTree) (g : FieldTree) → slice_get (nodes table.old) field ≡ Some (of_field f) → slice_get (nodes table.old) other ≡ Some (of_field g) → IfOk result (λ made. slice_get (nodes table.new) made ≡ Some (of_truth (t.eq_object (t.read_object f (t.bound 1)) (t.read_object g (t.bound 0))))) }
    ensures grows { Extends table.old table.new }
{
    let first = child_of(table, field, 1)?;
    let second = child_of(table, other, 0)?;
    table.make(Shape::EqObject(first, second))
}

/// The node of that a field leads to null.
fn no_child(table: &mut Table, field: usize) -> Result<usize, NoMemory>
    requires field { HoldsField table.old field }
    ensures node { (f : FieldTree) → slice_get (nodes table.old) field ≡ Some (of_field f) → IfOk result (λ made. slice_get (nodes table.new) made ≡ Some (of_truth (t.eq_object (t.read_object f (t.bound 1)) t.null))) }
    ensures grows { Extends table.old table.new }
{
    let child = child_of(table, field, 1)?;
    let null = table.make(Shape::Null)?;
    table.make(Shape::EqObject(child, null))
}

/// The node of that two fields lead to no object but null.
pub(crate) fn apart(table: &mut Table, field: usize, other: usize) -> Result<usize, NoMemory>
    requires field { HoldsField table.old field }
    requires other { HoldsField table.old other }
    ensures node { (f : FieldTree) (g : FieldTree) → slice_get (nodes table.old) field ≡ Some (of_field f) → slice_get (nodes table.old) other ≡ Some (of_field g) → IfOk result (λ made. slice_get (nodes table.new) made ≡ Some (of_truth (apart f g))) }
    ensures grows { Extends table.old table.new }
{
    let premise = same_child(table, field, other)?;
    let end = no_child(table, field)?;
    follows_for_two(table, premise, end)
}
