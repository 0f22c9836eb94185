ghost use Rattle.std.specs.Prelude.{◌≡◌, IfOk, Some, slice_get};
ghost use Rattle.jh_form.specs.Sorts.{same_sort};
ghost use Rattle.jh_form.specs.Tree.{TermTree, FieldTree, of_object, of_field, of_truth};
ghost use Rattle.jh_arena.specs.table.Growth.{Extends};
ghost use Rattle.jh_arena.specs.table.Nodes.{nodes};
ghost use Rattle.jh_derivation_rules.specs.Rules.{equation, reads_equal};
ghost use Rattle.jh_derivation_steps.specs.premises.Nodes.{value_at, IsTerm, IsField, IsValue, Makes};

use crate::premises::making::{
    equal_numbers, equal_objects, equal_sets, equal_truths, same_numbers, same_objects, same_sets,
    same_truths,
};
use jh_arena::table::Table;
use jh_name::{Kind, NoMemory, Sort};

/// Whether two sorts are one.
fn sorts_are_one(left: Sort, right: Sort) -> bool
    ensures { result ≡ same_sort left right }
{
    left == right
}

/// The node of that two values are equal, where both are of one sort and no fields.
pub fn equation(table: &mut Table, left: usize, right: usize) -> Result<Option<usize>, NoMemory>
    requires left { IsValue (nodes table.old) left }
    requires right { IsValue (nodes table.old) right }
    ensures made { Makes (nodes table.new) (equation (value_at (nodes table.old) left) (value_at (nodes table.old) right)) result }
    ensures grows { Extends table.old table.new }
{
    let sort = table.sort(left);
    if !sorts_are_one(sort, table.sort(right)) {
        return Ok(None);
    }
    match sort {
        Sort::Obj => Ok(Some(equal_objects(table, left, right)?)),
        Sort::Int => Ok(Some(equal_numbers(table, left, right)?)),
        Sort::Bool => Ok(Some(equal_truths(table, left, right)?)),
        Sort::Set => Ok(Some(equal_sets(table, left, right)?)),
        Sort::Field => Ok(None),
    }
}

/// The node of that a field gives the same at two terms.
#[tactic(auto, unfolding(jh_derivation_rules::specs::Rules::reads_equal))]
pub fn reads_equal(
    table: &mut Table,
    kind: Kind,
    field: usize,
    left: usize,
    right: usize,
) -> Result<usize, NoMemory>
    requires field { IsField (nodes table.old) field }
    requires left { IsTerm (nodes table.old) left }
    requires right { IsTerm (nodes table.old) right }
    ensures made { IfOk result (λ made. (f : FieldTree) (u v : TermTree) → slice_get (nodes table.old) field ≡ Some (of_field f) → slice_get (nodes table.old) left ≡ Some (of_object u) → slice_get (nodes table.old) right ≡ Some (of_object v) → slice_get (nodes table.new) made ≡ Some (of_truth (reads_equal kind f u v))) }
    ensures grows { Extends table.old table.new }
{
    match kind {
        Kind::Obj => same_objects(table, field, left, right),
        Kind::Int => same_numbers(table, field, left, right),
        Kind::Bool => same_truths(table, field, left, right),
        Kind::Set => same_sets(table, field, left, right),
    }
}
