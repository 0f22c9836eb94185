ghost use Rattle.std.specs.Prelude.{◌≡◌, true, IfOk, Some, slice_get};
ghost use Rattle.jh_form.specs.Tree.{of_truth};
ghost use Rattle.jh_form.specs.Tree as t;
ghost use Rattle.jh_arena.specs.table.Entries.{is_truth, the_truth};
ghost use Rattle.jh_arena.specs.table.Growth.{Extends};
ghost use Rattle.jh_arena.specs.table.Nodes.{nodes};

use crate::table::{Shape, Table};
use jh_boxed::jh_name::NoMemory;
use jh_form::Mark;

/// The node of a formula under a label.
pub fn labelled(table: &mut Table, mark: &Mark, a: usize) -> Result<usize, NoMemory>
    requires a { is_truth (slice_get (nodes table.old) a) ≡ true }
    ensures node { IfOk result (λ made. slice_get (nodes table.new) made ≡ Some (of_truth (t.mark mark.now (the_truth (slice_get (nodes table.old) a))))) }
    ensures grows { Extends table.old table.new }
{
    let number = table.mark(mark)?;
    table.make(Shape::Mark(number, a))
}
