// Written by tools/makers.py.
#![tactic(auto, unfolding(crate::specs::table::Nodes::fits, crate::specs::table::Nodes::shape_tree))]

ghost use Rattle.std.specs.Prelude.{◌≡◌, true, IfOk, Some, slice_get};
ghost use Rattle.jh_form.specs.Tree.{of_set};
ghost use Rattle.jh_form.specs.Tree as t;
ghost use Rattle.jh_arena.specs.table.Entries.{is_field, is_object, is_set, is_truth, the_field, the_object, the_set, the_truth};
ghost use Rattle.jh_arena.specs.table.Growth.{Extends};
ghost use Rattle.jh_arena.specs.table.Nodes.{nodes};

use crate::table::{Shape, Table};
use jh_boxed::jh_name::NoMemory;

/// The node of a read of a set field.
pub fn read_set(table: &mut Table, a: usize, b: usize) -> Result<usize, NoMemory>
    requires a { is_field (slice_get (nodes table.old) a) ≡ true }
    requires b { is_object (slice_get (nodes table.old) b) ≡ true }
    ensures node { IfOk result (λ made. slice_get (nodes table.new) made ≡ Some (of_set (t.read_set (the_field (slice_get (nodes table.old) a)) (the_object (slice_get (nodes table.old) b))))) }
    ensures grows { Extends table.old table.new }
{
    table.make(Shape::ReadSet(a, b))
}

/// The node of the empty set.
pub fn empty_set(table: &mut Table) -> Result<usize, NoMemory>
    ensures node { IfOk result (λ made. slice_get (nodes table.new) made ≡ Some (of_set t.empty)) }
    ensures grows { Extends table.old table.new }
{
    table.make(Shape::Empty)
}

/// The node of the set of all objects.
pub fn all_objects(table: &mut Table) -> Result<usize, NoMemory>
    ensures node { IfOk result (λ made. slice_get (nodes table.new) made ≡ Some (of_set t.univ)) }
    ensures grows { Extends table.old table.new }
{
    table.make(Shape::Univ)
}

/// The node of the set of one object.
pub fn singleton(table: &mut Table, a: usize) -> Result<usize, NoMemory>
    requires a { is_object (slice_get (nodes table.old) a) ≡ true }
    ensures node { IfOk result (λ made. slice_get (nodes table.new) made ≡ Some (of_set (t.single (the_object (slice_get (nodes table.old) a))))) }
    ensures grows { Extends table.old table.new }
{
    table.make(Shape::Single(a))
}

/// The node of a union.
pub fn union_of(table: &mut Table, a: usize, b: usize) -> Result<usize, NoMemory>
    requires a { is_set (slice_get (nodes table.old) a) ≡ true }
    requires b { is_set (slice_get (nodes table.old) b) ≡ true }
    ensures node { IfOk result (λ made. slice_get (nodes table.new) made ≡ Some (of_set (t.union (the_set (slice_get (nodes table.old) a)) (the_set (slice_get (nodes table.old) b))))) }
    ensures grows { Extends table.old table.new }
{
    table.make(Shape::Union(a, b))
}

/// The node of an intersection.
pub fn intersection(table: &mut Table, a: usize, b: usize) -> Result<usize, NoMemory>
    requires a { is_set (slice_get (nodes table.old) a) ≡ true }
    requires b { is_set (slice_get (nodes table.old) b) ≡ true }
    ensures node { IfOk result (λ made. slice_get (nodes table.new) made ≡ Some (of_set (t.inter (the_set (slice_get (nodes table.old) a)) (the_set (slice_get (nodes table.old) b))))) }
    ensures grows { Extends table.old table.new }
{
    table.make(Shape::Inter(a, b))
}

/// The node of a difference of sets.
pub fn set_difference(table: &mut Table, a: usize, b: usize) -> Result<usize, NoMemory>
    requires a { is_set (slice_get (nodes table.old) a) ≡ true }
    requires b { is_set (slice_get (nodes table.old) b) ≡ true }
    ensures node { IfOk result (λ made. slice_get (nodes table.new) made ≡ Some (of_set (t.diff (the_set (slice_get (nodes table.old) a)) (the_set (slice_get (nodes table.old) b))))) }
    ensures grows { Extends table.old table.new }
{
    table.make(Shape::Diff(a, b))
}

/// The node of a complement.
pub fn complement(table: &mut Table, a: usize) -> Result<usize, NoMemory>
    requires a { is_set (slice_get (nodes table.old) a) ≡ true }
    ensures node { IfOk result (λ made. slice_get (nodes table.new) made ≡ Some (of_set (t.compl (the_set (slice_get (nodes table.old) a))))) }
    ensures grows { Extends table.old table.new }
{
    table.make(Shape::Compl(a))
}

/// The node of the set of the objects of which a formula is true, as the variable of a binder.
pub fn comprehension(table: &mut Table, a: usize) -> Result<usize, NoMemory>
    requires a { is_truth (slice_get (nodes table.old) a) ≡ true }
    ensures node { IfOk result (λ made. slice_get (nodes table.new) made ≡ Some (of_set (t.compr (the_truth (slice_get (nodes table.old) a))))) }
    ensures grows { Extends table.old table.new }
{
    table.make(Shape::Compr(a))
}
