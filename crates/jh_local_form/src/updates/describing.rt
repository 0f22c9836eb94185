ghost use Rattle.std.specs.Prelude.{◌≡◌, true, IfOk, Some, slice_get};
ghost use Rattle.jh_form.specs.Tree.{TermTree, FieldTree, FormulaTree, ValueTree, of_object, of_field, of_truth};
ghost use Rattle.jh_form.specs.Tree as t;
ghost use Rattle.jh_form.specs.Sorts.{tree_sort};
ghost use Rattle.jh_arena.specs.table.Entries.{the_value};
ghost use Rattle.jh_arena.specs.table.Growth.{Extends};
ghost use Rattle.jh_arena.specs.table.Nodes.{nodes};
ghost use Rattle.jh_reach.specs.Standing.{HoldsField, HoldsObject, HoldsFormula};
ghost use Rattle.jh_approx.specs.jh_derivation_rules.Rules.{at_each, described};
ghost use Rattle.jh_fca.specs.local_form.Named.{if_any};
ghost use Rattle.jh_local_form.specs.updates.Describing.{read_as, same_as, told_as};
ghost use Rattle.jh_local_form.specs.updates.NamedUpdates.{AreTold};
ghost use Rattle.jh_local_form.specs.updates.Telling.{HoldsSort};

use jh_arena::makers::{
    bound, conjunction, equivalence, for_all, implication, negation, read_number, read_object,
    read_set, read_truth, same_number, same_object, same_set, truth,
};
use jh_arena::table::Table;
use jh_name::{NoMemory, Sort};

/// The node of what a field gives at an object, as a value of this sort.
fn read_as(table: &mut Table, sort: Sort, field: usize, object: usize) -> Result<usize, NoMemory>
    requires field { HoldsField table.old field }
    requires object { HoldsObject table.old object }
    ensures node { IfOk result (λ made. (f : FieldTree) (a : TermTree) → slice_get (nodes table.old) field ≡ Some (of_field f) → slice_get (nodes table.old) object ≡ Some (of_object a) → slice_get (nodes table.new) made ≡ Some (read_as sort f a)) }
    ensures grows { Extends table.old table.new }
{
    match sort {
        Sort::Obj => read_object(table, field, object),
        Sort::Int => read_number(table, field, object),
        Sort::Bool => read_truth(table, field, object),
        Sort::Set => read_set(table, field, object),
        Sort::Field => Ok(field),
    }
}

/// The node of that two values of this sort are the same.
fn same_as(table: &mut Table, sort: Sort, a: usize, b: usize) -> Result<usize, NoMemory>
    requires a { HoldsSort (nodes table.old) sort a }
    requires b { HoldsSort (nodes table.old) sort b }
    ensures node { IfOk result (λ made. (v w : ValueTree) → slice_get (nodes table.old) a ≡ Some v → slice_get (nodes table.old) b ≡ Some w → slice_get (nodes table.new) made ≡ Some (of_truth (same_as v w))) }
    ensures grows { Extends table.old table.new }
{
    match sort {
        Sort::Obj => same_object(table, a, b),
        Sort::Int => same_number(table, a, b),
        Sort::Bool => equivalence(table, a, b),
        Sort::Set => same_set(table, a, b),
        Sort::Field => truth(table),
    }
}

/// The node of that one formula is true at an object, and another at each other object.
fn at_each(table: &mut Table, at: usize, this: usize, that: usize) -> Result<usize, NoMemory>
    requires at { HoldsObject table.old at }
    requires this { HoldsFormula table.old this }
    requires that { HoldsFormula table.old that }
    ensures node { IfOk result (λ made. (a : TermTree) (p q : FormulaTree) → slice_get (nodes table.old) at ≡ Some (of_object a) → slice_get (nodes table.old) this ≡ Some (of_truth p) → slice_get (nodes table.old) that ≡ Some (of_truth q) → slice_get (nodes table.new) made ≡ Some (of_truth (at_each a p q))) }
    ensures grows { Extends table.old table.new }
{
    let object = bound(table, 0)?;
    let here = same_object(table, object, at)?;
    let left = implication(table, here, this)?;
    let elsewhere = negation(table, here)?;
    let right = implication(table, elsewhere, that)?;
    let body = conjunction(table, left, right)?;
    for_all(table, body)
}

/// The node of what an update gives at each object, where its values are of this sort.
fn told_as(
    table: &mut Table,
    sort: Sort,
    new: usize,
    old: usize,
    at: usize,
    value: usize,
) -> Result<usize, NoMemory>
    requires new { HoldsField table.old new }
    requires old { HoldsField table.old old }
    requires at { HoldsObject table.old at }
    requires value { HoldsSort (nodes table.old) sort value }
    ensures node { IfOk result (λ made. (g f : FieldTree) (a : TermTree) (v : ValueTree) → slice_get (nodes table.old) new ≡ Some (of_field g) → slice_get (nodes table.old) old ≡ Some (of_field f) → slice_get (nodes table.old) at ≡ Some (of_object a) → slice_get (nodes table.old) value ≡ Some v → slice_get (nodes table.new) made ≡ Some (of_truth (told_as sort g f a v))) }
    ensures grows { Extends table.old table.new }
{
    let object = bound(table, 0)?;
    let after = read_as(table, sort, new, object)?;
    let before = read_as(table, sort, old, object)?;
    let here = same_as(table, sort, after, value)?;
    let elsewhere = same_as(table, sort, after, before)?;
    at_each(table, at, here, elsewhere)
}

/// The node of what an update gives at each object; none where its value is a field.
pub(crate) fn described(
    table: &mut Table,
    new: usize,
    old: usize,
    at: usize,
    value: usize,
) -> Result<Option<usize>, NoMemory>
    requires new { HoldsField table.old new }
    requires old { HoldsField table.old old }
    requires at { HoldsObject table.old at }
    requires value { HoldsSort (nodes table.old) (tree_sort (the_value (slice_get (nodes table.old) value))) value }
    ensures node { IfOk result (λ made. (g f : FieldTree) (a : TermTree) (v : ValueTree) → slice_get (nodes table.old) new ≡ Some (of_field g) → slice_get (nodes table.old) old ≡ Some (of_field f) → slice_get (nodes table.old) at ≡ Some (of_object a) → slice_get (nodes table.old) value ≡ Some v → AreTold (nodes table.new) made (if_any (described g f a v))) }
    ensures grows { Extends table.old table.new }
{
    match table.sort(value) {
        Sort::Field => Ok(None),
        sort => Ok(Some(told_as(table, sort, new, old, at, value)?)),
    }
}
