#![tactic(auto, using(jh_arena::proofs::table::Listed::growth_steps))]

ghost use Rattle.std.specs.Prelude.{◌≡◌, true, IfOk, Some, slice_get};
ghost use Rattle.jh_form.specs.Tree.{of_set, of_truth};
ghost use Rattle.jh_form.specs.Tree as t;
ghost use Rattle.jh_boxed.specs.Mapped.{mapped_term, mapped_set};
ghost use Rattle.jh_arena.specs.table.Entries.{is_object, is_set, the_object, the_set};
ghost use Rattle.jh_arena.specs.table.Growth.{Extends};
ghost use Rattle.jh_arena.specs.table.Nodes.{nodes};
ghost use Rattle.jh_substitution.specs.simultaneous.Lifted.{lifting};
ghost use Rattle.jh_normal_forms.specs.set_opening.Joining.{joined};
ghost use Rattle.jh_normal_forms.specs.set_opening.SetsOpened.{body, is_in};

use crate::set_opening::joining::{Join, join_two};
use jh_arena::makers::{bound, comprehension, for_all, member, negation, same_object};
use jh_arena::table::{Shape, Table};
use jh_name::NoMemory;
use jh_substitution::instantiation::put;
use jh_substitution::simultaneous::lift;

/// That the variable of one more binder is in a set that is no comprehension.
fn variable_in(table: &mut Table, set: usize) -> Result<usize, NoMemory>
    requires set { is_set (slice_get (nodes table.old) set) ≡ true }
    ensures node { IfOk result (λ made. slice_get (nodes table.new) made ≡ Some (of_truth (t.member (t.bound 0) (mapped_set (the_set (slice_get (nodes table.old) set)) (lifting 1) 0)))) }
    ensures grows { Extends table.old table.new }
{
    let risen = lift(table, set, 1)?;
    let variable = bound(table, 0)?;
    member(table, variable, risen)
}

/// What a set says of the variable of one more binder.
fn body(table: &mut Table, set: usize) -> Result<usize, NoMemory>
    requires set { is_set (slice_get (nodes table.old) set) ≡ true }
    ensures node { IfOk result (λ made. slice_get (nodes table.new) made ≡ Some (of_truth (body (the_set (slice_get (nodes table.old) set))))) }
    ensures grows { Extends table.old table.new }
{
    match table.shape(set) {
        Shape::Compr(formula) => Ok(formula),
        _ => variable_in(table, set),
    }
}

/// What two sets say of one object, joined.
fn said(table: &mut Table, how: Join, a: usize, b: usize) -> Result<usize, NoMemory>
    requires a { is_set (slice_get (nodes table.old) a) ≡ true }
    requires b { is_set (slice_get (nodes table.old) b) ≡ true }
    ensures node { IfOk result (λ made. slice_get (nodes table.new) made ≡ Some (of_truth (joined how (body (the_set (slice_get (nodes table.old) a))) (body (the_set (slice_get (nodes table.old) b)))))) }
    ensures grows { Extends table.old table.new }
{
    let left = body(table, a)?;
    let right = body(table, b)?;
    join_two(table, how, left, right)
}

/// The set of the objects of which two sets say this.
pub(crate) fn where_said(
    table: &mut Table,
    how: Join,
    a: usize,
    b: usize,
) -> Result<usize, NoMemory>
    requires a { is_set (slice_get (nodes table.old) a) ≡ true }
    requires b { is_set (slice_get (nodes table.old) b) ≡ true }
    ensures node { IfOk result (λ made. slice_get (nodes table.new) made ≡ Some (of_set (t.compr (joined how (body (the_set (slice_get (nodes table.old) a))) (body (the_set (slice_get (nodes table.old) b))))))) }
    ensures grows { Extends table.old table.new }
{
    let formula = said(table, how, a, b)?;
    comprehension(table, formula)
}

/// That two sets say this of each object.
pub(crate) fn said_of_each(
    table: &mut Table,
    how: Join,
    a: usize,
    b: usize,
) -> Result<usize, NoMemory>
    requires a { is_set (slice_get (nodes table.old) a) ≡ true }
    requires b { is_set (slice_get (nodes table.old) b) ≡ true }
    ensures node { IfOk result (λ made. slice_get (nodes table.new) made ≡ Some (of_truth (t.all (joined how (body (the_set (slice_get (nodes table.old) a))) (body (the_set (slice_get (nodes table.old) b))))))) }
    ensures grows { Extends table.old table.new }
{
    let formula = said(table, how, a, b)?;
    for_all(table, formula)
}

/// The set of the objects that aren't in a set.
pub(crate) fn outside(table: &mut Table, set: usize) -> Result<usize, NoMemory>
    requires set { is_set (slice_get (nodes table.old) set) ≡ true }
    ensures node { IfOk result (λ made. slice_get (nodes table.new) made ≡ Some (of_set (t.compr (t.negation (body (the_set (slice_get (nodes table.old) set))))))) }
    ensures grows { Extends table.old table.new }
{
    let formula = body(table, set)?;
    let negated = negation(table, formula)?;
    comprehension(table, negated)
}

/// The set of one object.
pub(crate) fn only(table: &mut Table, object: usize) -> Result<usize, NoMemory>
    requires object { is_object (slice_get (nodes table.old) object) ≡ true }
    ensures node { IfOk result (λ made. slice_get (nodes table.new) made ≡ Some (of_set (t.compr (t.eq_object (t.bound 0) (mapped_term (the_object (slice_get (nodes table.old) object)) (lifting 1) 0))))) }
    ensures grows { Extends table.old table.new }
{
    let risen = lift(table, object, 1)?;
    let variable = bound(table, 0)?;
    let same = same_object(table, variable, risen)?;
    comprehension(table, same)
}

/// That an object is in a set.
pub(crate) fn is_in(table: &mut Table, object: usize, set: usize) -> Result<usize, NoMemory>
    requires object { is_object (slice_get (nodes table.old) object) ≡ true }
    requires set { is_set (slice_get (nodes table.old) set) ≡ true }
    ensures node { IfOk result (λ made. slice_get (nodes table.new) made ≡ Some (of_truth (is_in (the_object (slice_get (nodes table.old) object)) (the_set (slice_get (nodes table.old) set))))) }
    ensures grows { Extends table.old table.new }
{
    match table.shape(set) {
        Shape::Compr(formula) => put(table, formula, object),
        _ => member(table, object, set),
    }
}
