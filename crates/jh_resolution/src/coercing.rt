#![tactic(auto, using(crate::proofs::Coercions::coerce_steps, jh_arena::proofs::table::Listed::growth_steps))]

ghost use Rattle.std.specs.Prelude.{◌≡◌, ◌<◌, IfOk, Some, length, slice_get};
ghost use Rattle.jh_form.specs.Sorts.{tree_sort, same_sort};
ghost use Rattle.jh_arena.specs.table.Entries.{the_value};
ghost use Rattle.jh_arena.specs.table.Growth.{Extends};
ghost use Rattle.jh_arena.specs.table.Nodes.{nodes};
ghost use Rattle.jh_resolution.specs.Sorting.{of_sort, default_of};

use jh_arena::table::{Shape, Table};
use jh_name::{NoMemory, Sort};

/// Whether two sorts are one.
pub fn sorts_are_one(left: Sort, right: Sort) -> bool
    ensures { result ≡ same_sort left right }
{
    left == right
}

/// What stands for a value that is to be of a sort and isn't.
#[tactic(auto, unfolding(jh_arena::specs::table::Nodes::fits, jh_arena::specs::table::Nodes::shape_tree))]
fn default_of(table: &mut Table, sort: Sort) -> Result<usize, NoMemory>
    ensures node { IfOk result (λ made. slice_get (nodes table.new) made ≡ Some (default_of sort)) }
    ensures grows { Extends table.old table.new }
{
    match sort {
        Sort::Obj => table.make(Shape::Null),
        Sort::Int => table.make(Shape::Const(0)),
        Sort::Bool => table.make(Shape::True),
        Sort::Set => table.make(Shape::Empty),
        Sort::Field => table.make(Shape::Null),
    }
}

/// The node itself where it is of the sort, and else what stands for such a value.
pub fn coerced(table: &mut Table, node: usize, sort: Sort) -> Result<usize, NoMemory>
    requires { node < length (nodes table.old) }
    ensures node { IfOk result (λ made. slice_get (nodes table.new) made ≡ Some (of_sort sort (the_value (slice_get (nodes table.old) node)))) }
    ensures grows { Extends table.old table.new }
{
    if sorts_are_one(sort, table.sort(node)) {
        Ok(node)
    } else {
        default_of(table, sort)
    }
}

/// Two nodes.
#[derive(Clone, Copy)]
pub struct Two {
    pub left: usize,
    pub right: usize,
}

/// Two nodes, each itself where it is of its sort, and else what stands for such a value.
pub fn both(
    table: &mut Table,
    left: usize,
    left_sort: Sort,
    right: usize,
    right_sort: Sort,
) -> Result<Two, NoMemory>
    requires left { left < length (nodes table.old) }
    requires right { right < length (nodes table.old) }
    ensures left { IfOk result (λ made. slice_get (nodes table.new) made.left ≡ Some (of_sort left_sort (the_value (slice_get (nodes table.old) left)))) }
    ensures right { IfOk result (λ made. slice_get (nodes table.new) made.right ≡ Some (of_sort right_sort (the_value (slice_get (nodes table.old) right)))) }
    ensures grows { Extends table.old table.new }
{
    let left = coerced(table, left, left_sort)?;
    let right = coerced(table, right, right_sort)?;
    Ok(Two { left, right })
}
