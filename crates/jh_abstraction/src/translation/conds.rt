#![tactic(auto, using(jh_query::proofs::queries::Steps::tree_steps))]

ghost use Rattle.std.specs.Prelude.{◌≡◌, true, IfOk, slice_get};
ghost use Rattle.jh_arena.specs.table.Entries.{is_truth};
ghost use Rattle.jh_arena.specs.table.Nodes.{nodes};
ghost use Rattle.jh_arena.specs.declared.table.shapes.Shape.TheVariants as s;
ghost use Rattle.jh_export.specs.Standing.{Stands};
ghost use Rattle.jh_query.specs.queries.Bare.{cond_tree};
ghost use Rattle.jh_query_names.specs.name_lists.Lists.{AreListed};
ghost use Rattle.jh_abstraction.specs.translation.Telling.{cond_at};
ghost use Rattle.jh_abstraction.specs.translation.Operators.{joined_conds, connective_shape};

use crate::translation::atoms::{
    Comparison, Relation, at_most, compared, divided, flag, member, related, same_element,
};
use crate::translation::room::Room;
use crate::translation::standing::standing;
use jh_arena::table::{Shape, Table};
use jh_boxed::boxed;
use jh_name::NoMemory;
use jh_query::queries::Cond;
use jh_query_names::name_lists::Listed;

/// How two conditions are joined.
#[derive(Clone, Copy)]
pub enum Connective {
    And,
    Or,
    Implies,
    Iff,
}

fn join(connective: Connective, left: Box<Cond>, right: Box<Cond>) -> Cond
    ensures { cond_tree result ≡ joined_conds connective (cond_tree left.value) (cond_tree right.value) }
{
    match connective {
        Connective::And => Cond::And(left, right),
        Connective::Or => Cond::Or(left, right),
        Connective::Implies => Cond::Implies(left, right),
        Connective::Iff => Cond::Iff(left, right),
    }
}

/// What stands for two formulas that are joined.
#[cycle(conds)]
#[tactic(auto, using(jh_query::proofs::queries::Steps::tree_steps, crate::proofs::translation::CondArms::joined_steps))]
fn both(
    table: &Table,
    names: &Listed,
    room: &mut Room,
    node: usize,
    connective: Connective,
    a: usize,
    b: usize,
) -> Result<Box<Cond>, NoMemory>
    requires names { AreListed (nodes table.now) names.now }
    requires stands { Stands table.now node (connective_shape connective a b) }
    ensures { IfOk result (λ made. cond_tree made.value ≡ cond_at (nodes table.now) names.now node) }
{
    let left = told_cond(table, names, room, a)?;
    let right = told_cond(table, names, room, b)?;
    boxed(table.alloc(), join(connective, left, right))
}

/// What stands for a negation.
#[cycle(conds)]
#[tactic(auto, using(jh_query::proofs::queries::Steps::tree_steps, crate::proofs::translation::CondArms::negation_steps))]
fn negated(
    table: &Table,
    names: &Listed,
    room: &mut Room,
    node: usize,
    a: usize,
) -> Result<Box<Cond>, NoMemory>
    requires names { AreListed (nodes table.now) names.now }
    requires stands { Stands table.now node (s.Negation a) }
    ensures { IfOk result (λ made. cond_tree made.value ≡ cond_at (nodes table.now) names.now node) }
{
    let inner = told_cond(table, names, room, a)?;
    boxed(table.alloc(), Cond::Not(inner))
}

/// What stands for a formula: what is no connective and no atom of which a query speaks is a flag.
#[cycle(conds)]
#[tactic(auto, using(jh_query::proofs::queries::Steps::tree_steps, crate::proofs::translation::CondArms::cond_steps))]
fn told_cond(
    table: &Table,
    names: &Listed,
    room: &mut Room,
    node: usize,
) -> Result<Box<Cond>, NoMemory>
    requires names { AreListed (nodes table.now) names.now }
    requires truth { is_truth (slice_get (nodes table.now) node) ≡ true }
    ensures { IfOk result (λ made. cond_tree made.value ≡ cond_at (nodes table.now) names.now node) }
{
    room.take()?;
    match standing(table, node) {
        Shape::True => boxed(table.alloc(), Cond::True),
        Shape::False => boxed(table.alloc(), Cond::False),
        Shape::Negation(a) => negated(table, names, room, node, a),
        Shape::And(a, b) => both(table, names, room, node, Connective::And, a, b),
        Shape::Or(a, b) => both(table, names, room, node, Connective::Or, a, b),
        Shape::Implies(a, b) => both(table, names, room, node, Connective::Implies, a, b),
        Shape::Iff(a, b) => both(table, names, room, node, Connective::Iff, a, b),
        Shape::EqObject(a, b) => same_element(table, names, node, a, b),
        Shape::EqNumber(a, b) => compared(table, names, room, node, Comparison::Equal, a, b),
        Shape::EqSet(a, b) => related(table, names, room, node, Relation::Equal, a, b),
        Shape::Less(a, b) => compared(table, names, room, node, Comparison::Less, a, b),
        Shape::LessEqual(a, b) => at_most(table, names, room, node, a, b),
        Shape::Divides(factor, a) => divided(table, names, room, node, factor, a),
        Shape::Member(a, b) => member(table, names, room, node, a, b),
        Shape::Subset(a, b) => related(table, names, room, node, Relation::Within, a, b),
        _ => flag(table, names, node),
    }
}

/// What stands for a formula that doesn't nest too deep.
#[tactic(auto, using(jh_export::proofs::Places::inside_steps))]
pub(crate) fn told_formula(
    table: &Table,
    names: &Listed,
    room: &mut Room,
    node: usize,
) -> Result<Cond, NoMemory>
    requires names { AreListed (nodes table.now) names.now }
    requires truth { is_truth (slice_get (nodes table.now) node) ≡ true }
    ensures { IfOk result (λ made. cond_tree made ≡ cond_at (nodes table.now) names.now node) }
{
    if !table.is_shallow(node) {
        return Err(NoMemory);
    }
    let made = told_cond(table, names, room, node)?;
    Ok(Box::into_inner(made))
}
