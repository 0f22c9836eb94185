// Written by tools/makers.py.
#![tactic(auto, unfolding(crate::specs::table::Nodes::fits, crate::specs::table::Nodes::shape_tree))]

ghost use Rattle.std.specs.Prelude.{◌≡◌, true, IfOk, Some, is_some, slice_get};
ghost use Rattle.jh_form.specs.Tree.{of_field};
ghost use Rattle.jh_form.specs.Tree as t;
ghost use Rattle.jh_arena.specs.table.Entries.{is_field, is_object, the_field, the_object, the_value};
ghost use Rattle.jh_arena.specs.table.Growth.{Extends};
ghost use Rattle.jh_arena.specs.table.Nodes.{nodes};

use crate::table::{Shape, Table};
use jh_boxed::jh_name::NoMemory;

/// The node of a field with another value at one object.
pub fn update(table: &mut Table, a: usize, b: usize, c: usize) -> Result<usize, NoMemory>
    requires a { is_field (slice_get (nodes table.old) a) ≡ true }
    requires b { is_object (slice_get (nodes table.old) b) ≡ true }
    requires c { is_some (slice_get (nodes table.old) c) ≡ true }
    ensures node { IfOk result (λ made. slice_get (nodes table.new) made ≡ Some (of_field (t.update (the_field (slice_get (nodes table.old) a)) (the_object (slice_get (nodes table.old) b)) (the_value (slice_get (nodes table.old) c))))) }
    ensures grows { Extends table.old table.new }
{
    table.make(Shape::Update(a, b, c))
}
