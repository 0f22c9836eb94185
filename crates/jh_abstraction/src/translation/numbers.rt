#![tactic(auto, using(jh_query::proofs::queries::Steps::tree_steps))]

ghost use Rattle.std.specs.Prelude.{◌≡◌, true, IfOk, slice_get};
ghost use Rattle.jh_arena.specs.table.Entries.{is_number};
ghost use Rattle.jh_arena.specs.table.Nodes.{nodes};
ghost use Rattle.jh_arena.specs.declared.table.shapes.Shape.TheVariants as s;
ghost use Rattle.jh_export.specs.Standing.{Stands};
ghost use Rattle.jh_query.specs.queries.Bare.{num_tree};
ghost use Rattle.jh_query.specs.queries.Tree as q;
ghost use Rattle.jh_query_names.specs.name_lists.Lists.{AreListed};
ghost use Rattle.jh_abstraction.specs.translation.Telling.{number_at, number_place};
ghost use Rattle.jh_abstraction.specs.translation.Operators.{joined_numbers, number_shape};

use crate::translation::places::place_of_number;
use crate::translation::room::Room;
use crate::translation::sets::told_set;
use crate::translation::standing::standing;
use jh_arena::table::{Shape, Table};
use jh_boxed::boxed;
use jh_name::NoMemory;
use jh_query::queries::Num;
use jh_query_names::name_lists::Listed;

/// How two numbers are joined.
#[derive(Clone, Copy)]
pub enum Sign {
    Plus,
    Minus,
}

fn join(sign: Sign, left: Box<Num>, right: Box<Num>) -> Num
    ensures { num_tree result ≡ joined_numbers sign (num_tree left.value) (num_tree right.value) }
{
    match sign {
        Sign::Plus => Num::Add(left, right),
        Sign::Minus => Num::Sub(left, right),
    }
}

/// A number by its name.
fn named_number(table: &Table, names: &Listed, node: usize) -> Result<Box<Num>, NoMemory>
    requires names { AreListed (nodes table.now) names.now }
    requires number { is_number (slice_get (nodes table.now) node) ≡ true }
    ensures { IfOk result (λ made. num_tree made.value ≡ q.number (number_place (nodes table.now) names.now node)) }
{
    let place = place_of_number(table, names, node)?;
    boxed(table.alloc(), Num::Var(place))
}

/// How many objects are in a set.
#[tactic(auto, using(jh_query::proofs::queries::Steps::tree_steps, crate::proofs::translation::NumberArms::card_steps))]
fn counted(
    table: &Table,
    names: &Listed,
    room: &mut Room,
    node: usize,
    a: usize,
) -> Result<Box<Num>, NoMemory>
    requires names { AreListed (nodes table.now) names.now }
    requires stands { Stands table.now node (s.Card a) }
    ensures { IfOk result (λ made. num_tree made.value ≡ number_at (nodes table.now) names.now node) }
{
    let set = told_set(table, names, room, a)?;
    boxed(table.alloc(), Num::Card(set))
}

/// What stands for a sum or a difference.
#[cycle(numbers)]
#[tactic(auto, using(jh_query::proofs::queries::Steps::tree_steps, crate::proofs::translation::NumberArms::joined_steps))]
fn two_numbers(
    table: &Table,
    names: &Listed,
    room: &mut Room,
    node: usize,
    sign: Sign,
    a: usize,
    b: usize,
) -> Result<Box<Num>, NoMemory>
    requires names { AreListed (nodes table.now) names.now }
    requires stands { Stands table.now node (number_shape sign a b) }
    ensures { IfOk result (λ made. num_tree made.value ≡ number_at (nodes table.now) names.now node) }
{
    let left = told_number(table, names, room, a)?;
    let right = told_number(table, names, room, b)?;
    boxed(table.alloc(), join(sign, left, right))
}

/// What stands for the opposite of a number.
#[cycle(numbers)]
#[tactic(auto, using(jh_query::proofs::queries::Steps::tree_steps, crate::proofs::translation::NumberArms::negative_steps))]
fn negative(
    table: &Table,
    names: &Listed,
    room: &mut Room,
    node: usize,
    a: usize,
) -> Result<Box<Num>, NoMemory>
    requires names { AreListed (nodes table.now) names.now }
    requires stands { Stands table.now node (s.Neg a) }
    ensures { IfOk result (λ made. num_tree made.value ≡ number_at (nodes table.now) names.now node) }
{
    let inner = told_number(table, names, room, a)?;
    boxed(table.alloc(), Num::Neg(inner))
}

/// What stands for a constant times a number.
#[cycle(numbers)]
#[tactic(auto, using(jh_query::proofs::queries::Steps::tree_steps, crate::proofs::translation::NumberArms::scale_steps))]
fn scaled(
    table: &Table,
    names: &Listed,
    room: &mut Room,
    node: usize,
    factor: i64,
    a: usize,
) -> Result<Box<Num>, NoMemory>
    requires names { AreListed (nodes table.now) names.now }
    requires stands { Stands table.now node (s.Scale factor a) }
    ensures { IfOk result (λ made. num_tree made.value ≡ number_at (nodes table.now) names.now node) }
{
    let inner = told_number(table, names, room, a)?;
    boxed(table.alloc(), Num::Scale(factor, inner))
}

/// What stands for a number.
#[cycle(numbers)]
#[tactic(auto, using(jh_query::proofs::queries::Steps::tree_steps, crate::proofs::translation::NumberArms::number_steps))]
pub(crate) fn told_number(
    table: &Table,
    names: &Listed,
    room: &mut Room,
    node: usize,
) -> Result<Box<Num>, NoMemory>
    requires names { AreListed (nodes table.now) names.now }
    requires number { is_number (slice_get (nodes table.now) node) ≡ true }
    ensures { IfOk result (λ made. num_tree made.value ≡ number_at (nodes table.now) names.now node) }
{
    room.take()?;
    match standing(table, node) {
        Shape::Const(number) => boxed(table.alloc(), Num::Const(number)),
        Shape::Add(a, b) => two_numbers(table, names, room, node, Sign::Plus, a, b),
        Shape::Sub(a, b) => two_numbers(table, names, room, node, Sign::Minus, a, b),
        Shape::Neg(a) => negative(table, names, room, node, a),
        Shape::Scale(factor, a) => scaled(table, names, room, node, factor, a),
        Shape::Card(a) => counted(table, names, room, node, a),
        _ => named_number(table, names, node),
    }
}
