// Written by tools/makers.py.
#![tactic(auto, unfolding(crate::specs::table::Nodes::fits, crate::specs::table::Nodes::shape_tree))]

ghost use Rattle.std.specs.Prelude.{◌≡◌, true, IfOk, Some, slice_get};
ghost use Rattle.jh_form.specs.Tree.{of_number};
ghost use Rattle.jh_form.specs.Tree as t;
ghost use Rattle.jh_arena.specs.table.Entries.{is_field, is_number, is_object, is_set, the_field, the_number, the_object, the_set};
ghost use Rattle.jh_arena.specs.table.Growth.{Extends};
ghost use Rattle.jh_arena.specs.table.Nodes.{nodes};

use crate::table::{Shape, Table};
use jh_boxed::jh_name::NoMemory;

/// The node of a number.
pub fn constant(table: &mut Table, number: i64) -> Result<usize, NoMemory>
    ensures node { IfOk result (λ made. slice_get (nodes table.new) made ≡ Some (of_number (t.const number))) }
    ensures grows { Extends table.old table.new }
{
    table.make(Shape::Const(number))
}

/// The node of a read of a number field.
pub fn read_number(table: &mut Table, a: usize, b: usize) -> Result<usize, NoMemory>
    requires a { is_field (slice_get (nodes table.old) a) ≡ true }
    requires b { is_object (slice_get (nodes table.old) b) ≡ true }
    ensures node { IfOk result (λ made. slice_get (nodes table.new) made ≡ Some (of_number (t.read_number (the_field (slice_get (nodes table.old) a)) (the_object (slice_get (nodes table.old) b))))) }
    ensures grows { Extends table.old table.new }
{
    table.make(Shape::ReadNumber(a, b))
}

/// The node of a sum.
pub fn sum(table: &mut Table, a: usize, b: usize) -> Result<usize, NoMemory>
    requires a { is_number (slice_get (nodes table.old) a) ≡ true }
    requires b { is_number (slice_get (nodes table.old) b) ≡ true }
    ensures node { IfOk result (λ made. slice_get (nodes table.new) made ≡ Some (of_number (t.add (the_number (slice_get (nodes table.old) a)) (the_number (slice_get (nodes table.old) b))))) }
    ensures grows { Extends table.old table.new }
{
    table.make(Shape::Add(a, b))
}

/// The node of a difference of numbers.
pub fn difference(table: &mut Table, a: usize, b: usize) -> Result<usize, NoMemory>
    requires a { is_number (slice_get (nodes table.old) a) ≡ true }
    requires b { is_number (slice_get (nodes table.old) b) ≡ true }
    ensures node { IfOk result (λ made. slice_get (nodes table.new) made ≡ Some (of_number (t.sub (the_number (slice_get (nodes table.old) a)) (the_number (slice_get (nodes table.old) b))))) }
    ensures grows { Extends table.old table.new }
{
    table.make(Shape::Sub(a, b))
}

/// The node of a number with the other sign.
pub fn negative(table: &mut Table, a: usize) -> Result<usize, NoMemory>
    requires a { is_number (slice_get (nodes table.old) a) ≡ true }
    ensures node { IfOk result (λ made. slice_get (nodes table.new) made ≡ Some (of_number (t.neg (the_number (slice_get (nodes table.old) a))))) }
    ensures grows { Extends table.old table.new }
{
    table.make(Shape::Neg(a))
}

/// The node of a multiple.
pub fn multiple(table: &mut Table, number: i64, a: usize) -> Result<usize, NoMemory>
    requires a { is_number (slice_get (nodes table.old) a) ≡ true }
    ensures node { IfOk result (λ made. slice_get (nodes table.new) made ≡ Some (of_number (t.scale number (the_number (slice_get (nodes table.old) a))))) }
    ensures grows { Extends table.old table.new }
{
    table.make(Shape::Scale(number, a))
}

/// The node of the number of members of a set.
pub fn cardinality(table: &mut Table, a: usize) -> Result<usize, NoMemory>
    requires a { is_set (slice_get (nodes table.old) a) ≡ true }
    ensures node { IfOk result (λ made. slice_get (nodes table.new) made ≡ Some (of_number (t.card (the_set (slice_get (nodes table.old) a))))) }
    ensures grows { Extends table.old table.new }
{
    table.make(Shape::Card(a))
}
