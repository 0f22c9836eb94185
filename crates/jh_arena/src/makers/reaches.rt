ghost use Rattle.std.specs.Prelude.{◌≡◌, true, IfOk, Some, slice_get};
ghost use Rattle.jh_form.specs.Tree.{of_truth};
ghost use Rattle.jh_form.specs.Tree as t;
ghost use Rattle.jh_arena.specs.table.Entries.{is_object, the_object, are_fields, fields_at};
ghost use Rattle.jh_arena.specs.table.Growth.{Extends};
ghost use Rattle.jh_arena.specs.table.Nodes.{nodes};

use crate::table::{Shape, Table};
use jh_boxed::jh_name::NoMemory;

/// The node of that the second object is reached from the first along these fields.
pub fn reach(table: &mut Table, fields: &[usize], a: usize, b: usize) -> Result<usize, NoMemory>
    requires fields { are_fields (nodes table.old) fields.now ≡ true }
    requires a { is_object (slice_get (nodes table.old) a) ≡ true }
    requires b { is_object (slice_get (nodes table.old) b) ≡ true }
    ensures node { IfOk result (λ made. slice_get (nodes table.new) made ≡ Some (of_truth (t.reach (fields_at (nodes table.old) fields.now) (the_object (slice_get (nodes table.old) a)) (the_object (slice_get (nodes table.old) b))))) }
    ensures grows { Extends table.old table.new }
{
    let list = table.list(fields)?;
    table.make(Shape::Reach(list, a, b))
}

/// The node of that these fields are a forest.
pub fn forest(table: &mut Table, fields: &[usize]) -> Result<usize, NoMemory>
    requires { are_fields (nodes table.old) fields.now ≡ true }
    ensures node { IfOk result (λ made. slice_get (nodes table.new) made ≡ Some (of_truth (t.tree (fields_at (nodes table.old) fields.now)))) }
    ensures grows { Extends table.old table.new }
{
    let list = table.list(fields)?;
    table.make(Shape::Tree(list))
}
