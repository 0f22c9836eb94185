#![tactic(auto, using(jh_query::proofs::queries::Steps::tree_steps))]

ghost use Rattle.std.specs.Prelude.{◌≡◌, true, IfOk, slice_get};
ghost use Rattle.jh_arena.specs.table.Entries.{is_set};
ghost use Rattle.jh_arena.specs.table.Nodes.{nodes};
ghost use Rattle.jh_arena.specs.declared.table.shapes.Shape.TheVariants as s;
ghost use Rattle.jh_export.specs.Standing.{Stands};
ghost use Rattle.jh_query.specs.queries.Bare.{set_tree};
ghost use Rattle.jh_query.specs.queries.Tree as q;
ghost use Rattle.jh_query_names.specs.name_lists.Lists.{AreListed};
ghost use Rattle.jh_abstraction.specs.translation.Telling.{set_at, set_place};
ghost use Rattle.jh_abstraction.specs.translation.Operators.{joined_sets, set_shape};

use crate::translation::places::{place_of_element, place_of_set};
use crate::translation::room::Room;
use crate::translation::standing::standing;
use jh_arena::table::{Shape, Table};
use jh_boxed::boxed;
use jh_name::NoMemory;
use jh_query::queries::SetExpr;
use jh_query_names::name_lists::Listed;

/// How two sets are joined.
#[derive(Clone, Copy)]
pub enum Operator {
    Union,
    Inter,
    Diff,
}

fn join(operator: Operator, left: Box<SetExpr>, right: Box<SetExpr>) -> SetExpr
    ensures { set_tree result ≡ joined_sets operator (set_tree left.value) (set_tree right.value) }
{
    match operator {
        Operator::Union => SetExpr::Union(left, right),
        Operator::Inter => SetExpr::Inter(left, right),
        Operator::Diff => SetExpr::Diff(left, right),
    }
}

/// A set by its name.
fn named_set(table: &Table, names: &Listed, node: usize) -> Result<Box<SetExpr>, NoMemory>
    requires names { AreListed (nodes table.now) names.now }
    requires set { is_set (slice_get (nodes table.now) node) ≡ true }
    ensures { IfOk result (λ made. set_tree made.value ≡ q.var (set_place (nodes table.now) names.now node)) }
{
    let place = place_of_set(table, names, node)?;
    boxed(table.alloc(), SetExpr::Var(place))
}

/// The set of one element.
#[tactic(auto, using(jh_query::proofs::queries::Steps::tree_steps, crate::proofs::translation::SetArms::single_steps))]
fn single(table: &Table, names: &Listed, node: usize, a: usize) -> Result<Box<SetExpr>, NoMemory>
    requires names { AreListed (nodes table.now) names.now }
    requires stands { Stands table.now node (s.Single a) }
    ensures { IfOk result (λ made. set_tree made.value ≡ set_at (nodes table.now) names.now node) }
{
    let place = place_of_element(table, names, a)?;
    boxed(table.alloc(), SetExpr::One(place))
}

/// What stands for two sets that are joined.
#[cycle(sets)]
#[tactic(auto, using(jh_query::proofs::queries::Steps::tree_steps, crate::proofs::translation::SetArms::joined_steps))]
fn two_sets(
    table: &Table,
    names: &Listed,
    room: &mut Room,
    node: usize,
    operator: Operator,
    a: usize,
    b: usize,
) -> Result<Box<SetExpr>, NoMemory>
    requires names { AreListed (nodes table.now) names.now }
    requires stands { Stands table.now node (set_shape operator a b) }
    ensures { IfOk result (λ made. set_tree made.value ≡ set_at (nodes table.now) names.now node) }
{
    let left = told_set(table, names, room, a)?;
    let right = told_set(table, names, room, b)?;
    boxed(table.alloc(), join(operator, left, right))
}

/// What stands for a complement.
#[cycle(sets)]
#[tactic(auto, using(jh_query::proofs::queries::Steps::tree_steps, crate::proofs::translation::SetArms::complement_steps))]
fn complement(
    table: &Table,
    names: &Listed,
    room: &mut Room,
    node: usize,
    a: usize,
) -> Result<Box<SetExpr>, NoMemory>
    requires names { AreListed (nodes table.now) names.now }
    requires stands { Stands table.now node (s.Compl a) }
    ensures { IfOk result (λ made. set_tree made.value ≡ set_at (nodes table.now) names.now node) }
{
    let inner = told_set(table, names, room, a)?;
    boxed(table.alloc(), SetExpr::Compl(inner))
}

/// What stands for a set.
#[cycle(sets)]
#[tactic(auto, using(jh_query::proofs::queries::Steps::tree_steps, crate::proofs::translation::SetArms::set_steps))]
pub(crate) fn told_set(
    table: &Table,
    names: &Listed,
    room: &mut Room,
    node: usize,
) -> Result<Box<SetExpr>, NoMemory>
    requires names { AreListed (nodes table.now) names.now }
    requires set { is_set (slice_get (nodes table.now) node) ≡ true }
    ensures { IfOk result (λ made. set_tree made.value ≡ set_at (nodes table.now) names.now node) }
{
    room.take()?;
    match standing(table, node) {
        Shape::Empty => boxed(table.alloc(), SetExpr::Empty),
        Shape::Univ => boxed(table.alloc(), SetExpr::All),
        Shape::Single(a) => single(table, names, node, a),
        Shape::Union(a, b) => two_sets(table, names, room, node, Operator::Union, a, b),
        Shape::Inter(a, b) => two_sets(table, names, room, node, Operator::Inter, a, b),
        Shape::Diff(a, b) => two_sets(table, names, room, node, Operator::Diff, a, b),
        Shape::Compl(a) => complement(table, names, room, node, a),
        _ => named_set(table, names, node),
    }
}
