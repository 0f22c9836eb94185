// Written by tools/makers.py.
#![tactic(auto, unfolding(crate::specs::table::Nodes::fits, crate::specs::table::Nodes::shape_tree))]

ghost use Rattle.std.specs.Prelude.{◌≡◌, true, IfOk, Some, slice_get};
ghost use Rattle.jh_form.specs.Tree.{of_object};
ghost use Rattle.jh_form.specs.Tree as t;
ghost use Rattle.jh_arena.specs.table.Entries.{is_field, is_object, the_field, the_object};
ghost use Rattle.jh_arena.specs.table.Growth.{Extends};
ghost use Rattle.jh_arena.specs.table.Nodes.{nodes};

use crate::table::{Shape, Table};
use jh_boxed::jh_name::NoMemory;

/// The node of null.
pub fn null(table: &mut Table) -> Result<usize, NoMemory>
    ensures node { IfOk result (λ made. slice_get (nodes table.new) made ≡ Some (of_object t.null)) }
    ensures grows { Extends table.old table.new }
{
    table.make(Shape::Null)
}

/// The node of a read of an object field.
pub fn read_object(table: &mut Table, a: usize, b: usize) -> Result<usize, NoMemory>
    requires a { is_field (slice_get (nodes table.old) a) ≡ true }
    requires b { is_object (slice_get (nodes table.old) b) ≡ true }
    ensures node { IfOk result (λ made. slice_get (nodes table.new) made ≡ Some (of_object (t.read_object (the_field (slice_get (nodes table.old) a)) (the_object (slice_get (nodes table.old) b))))) }
    ensures grows { Extends table.old table.new }
{
    table.make(Shape::ReadObject(a, b))
}
