#![tactic(auto, using(jh_query::proofs::queries::Steps::tree_steps))]

ghost use Rattle.std.specs.Prelude.{◌≡◌, true, IfOk, slice_get};
ghost use Rattle.jh_arena.specs.table.Entries.{is_truth};
ghost use Rattle.jh_arena.specs.table.Nodes.{nodes};
ghost use Rattle.jh_arena.specs.declared.table.shapes.Shape.TheVariants as s;
ghost use Rattle.jh_export.specs.Standing.{Stands};
ghost use Rattle.jh_query.specs.queries.Bare.{cond_tree, num_tree, set_tree};
ghost use Rattle.jh_query.specs.queries.Tree as q;
ghost use Rattle.jh_query_names.specs.name_lists.Lists.{AreListed};
ghost use Rattle.jh_abstraction.specs.translation.Telling.{cond_at, flag_place};
ghost use Rattle.jh_abstraction.specs.translation.Operators.{compared_numbers, comparison_shape, related_sets, relation_shape};

use crate::translation::numbers::told_number;
use crate::translation::places::{place_of_element, place_of_flag};
use crate::translation::room::Room;
use crate::translation::sets::told_set;
use jh_arena::table::Table;
use jh_boxed::boxed;
use jh_name::NoMemory;
use jh_query::queries::{Cond, Num, SetExpr};
use jh_query_names::name_lists::Listed;

/// How two numbers are compared.
#[derive(Clone, Copy)]
pub enum Comparison {
    Equal,
    Less,
}

/// How two sets are compared.
#[derive(Clone, Copy)]
pub enum Relation {
    Equal,
    Within,
}

fn compare(comparison: Comparison, left: Box<Num>, right: Box<Num>) -> Cond
    ensures { cond_tree result ≡ compared_numbers comparison (num_tree left.value) (num_tree right.value) }
{
    let left = Box::into_inner(left);
    let right = Box::into_inner(right);
    match comparison {
        Comparison::Equal => Cond::EqualNum(left, right),
        Comparison::Less => Cond::LessNum(left, right),
    }
}

fn relate(relation: Relation, left: Box<SetExpr>, right: Box<SetExpr>) -> Cond
    ensures { cond_tree result ≡ related_sets relation (set_tree left.value) (set_tree right.value) }
{
    let left = Box::into_inner(left);
    let right = Box::into_inner(right);
    match relation {
        Relation::Equal => Cond::EqualSet(left, right),
        Relation::Within => Cond::Within(left, right),
    }
}

/// A flag, by its name.
pub(crate) fn flag(table: &Table, names: &Listed, node: usize) -> Result<Box<Cond>, NoMemory>
    requires names { AreListed (nodes table.now) names.now }
    requires truth { is_truth (slice_get (nodes table.now) node) ≡ true }
    ensures { IfOk result (λ made. cond_tree made.value ≡ q.flag (flag_place (nodes table.now) names.now node)) }
{
    let place = place_of_flag(table, names, node)?;
    boxed(table.alloc(), Cond::Flag(place))
}

/// That two elements are one object.
#[tactic(auto, using(jh_query::proofs::queries::Steps::tree_steps, crate::proofs::translation::AtomArms::element_steps))]
pub(crate) fn same_element(
    table: &Table,
    names: &Listed,
    node: usize,
    a: usize,
    b: usize,
) -> Result<Box<Cond>, NoMemory>
    requires names { AreListed (nodes table.now) names.now }
    requires stands { Stands table.now node (s.EqObject a b) }
    ensures { IfOk result (λ made. cond_tree made.value ≡ cond_at (nodes table.now) names.now node) }
{
    let left = place_of_element(table, names, a)?;
    let right = place_of_element(table, names, b)?;
    boxed(table.alloc(), Cond::SameElement(left, right))
}

/// That an element is in a set.
#[tactic(auto, using(jh_query::proofs::queries::Steps::tree_steps, crate::proofs::translation::AtomArms::member_steps))]
pub(crate) fn member(
    table: &Table,
    names: &Listed,
    room: &mut Room,
    node: usize,
    a: usize,
    b: usize,
) -> Result<Box<Cond>, NoMemory>
    requires names { AreListed (nodes table.now) names.now }
    requires stands { Stands table.now node (s.Member a b) }
    ensures { IfOk result (λ made. cond_tree made.value ≡ cond_at (nodes table.now) names.now node) }
{
    let element = place_of_element(table, names, a)?;
    let set = told_set(table, names, room, b)?;
    boxed(table.alloc(), Cond::In(element, Box::into_inner(set)))
}

/// That two numbers are equal, or the first is less.
#[tactic(auto, using(jh_query::proofs::queries::Steps::tree_steps, crate::proofs::translation::AtomArms::comparison_steps))]
pub(crate) fn compared(
    table: &Table,
    names: &Listed,
    room: &mut Room,
    node: usize,
    comparison: Comparison,
    a: usize,
    b: usize,
) -> Result<Box<Cond>, NoMemory>
    requires names { AreListed (nodes table.now) names.now }
    requires stands { Stands table.now node (comparison_shape comparison a b) }
    ensures { IfOk result (λ made. cond_tree made.value ≡ cond_at (nodes table.now) names.now node) }
{
    let left = told_number(table, names, room, a)?;
    let right = told_number(table, names, room, b)?;
    boxed(table.alloc(), compare(comparison, left, right))
}

/// That a number is at most another: the other isn't less.
#[tactic(auto, using(jh_query::proofs::queries::Steps::tree_steps, crate::proofs::translation::AtomArms::at_most_steps))]
pub(crate) fn at_most(
    table: &Table,
    names: &Listed,
    room: &mut Room,
    node: usize,
    a: usize,
    b: usize,
) -> Result<Box<Cond>, NoMemory>
    requires names { AreListed (nodes table.now) names.now }
    requires stands { Stands table.now node (s.LessEqual a b) }
    ensures { IfOk result (λ made. cond_tree made.value ≡ cond_at (nodes table.now) names.now node) }
{
    let left = told_number(table, names, room, b)?;
    let right = told_number(table, names, room, a)?;
    let less = boxed(table.alloc(), compare(Comparison::Less, left, right))?;
    boxed(table.alloc(), Cond::Not(less))
}

/// That two sets are equal, or the first lies in the second.
#[tactic(auto, using(jh_query::proofs::queries::Steps::tree_steps, crate::proofs::translation::AtomArms::relation_steps))]
pub(crate) fn related(
    table: &Table,
    names: &Listed,
    room: &mut Room,
    node: usize,
    relation: Relation,
    a: usize,
    b: usize,
) -> Result<Box<Cond>, NoMemory>
    requires names { AreListed (nodes table.now) names.now }
    requires stands { Stands table.now node (relation_shape relation a b) }
    ensures { IfOk result (λ made. cond_tree made.value ≡ cond_at (nodes table.now) names.now node) }
{
    let left = told_set(table, names, room, a)?;
    let right = told_set(table, names, room, b)?;
    boxed(table.alloc(), relate(relation, left, right))
}

/// That a constant divides a number.
#[tactic(auto, using(jh_query::proofs::queries::Steps::tree_steps, crate::proofs::translation::AtomArms::divides_steps))]
pub(crate) fn divided(
    table: &Table,
    names: &Listed,
    room: &mut Room,
    node: usize,
    factor: i64,
    a: usize,
) -> Result<Box<Cond>, NoMemory>
    requires names { AreListed (nodes table.now) names.now }
    requires stands { Stands table.now node (s.Divides factor a) }
    ensures { IfOk result (λ made. cond_tree made.value ≡ cond_at (nodes table.now) names.now node) }
{
    let number = told_number(table, names, room, a)?;
    boxed(
        table.alloc(),
        Cond::Divides(factor, Box::into_inner(number)),
    )
}
