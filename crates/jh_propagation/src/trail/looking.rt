ghost use Rattle.std.specs.Prelude.{◌≡◌, IfOk, List};
ghost use Rattle.jh_arena.specs.table.Nodes.{nodes};
ghost use Rattle.jh_form.specs.Tree.{FormulaTree, ValueTree};
ghost use Rattle.jh_form.specs.Tree as t;
ghost use Rattle.jh_propagation.specs.trail.Forms.{AreTwoParts, IsForm};
ghost use Rattle.jh_propagation.specs.trail.Looks.{IsSeen, list_in, list_of};
ghost use Rattle.jh_propagation.specs.trail.Saying.{IsTruth, truth_at};
ghost use Rattle.jh_propagation.specs.declared.trail.decided.Decided.{Decided};
ghost use Rattle.jh_propagation.specs.declared.trail.forms.Form.TheVariants.{Known, Literal};

use crate::trail::forms::{Form, form_at};
use crate::trail::found::{Found, is_false, is_nothing, items, listed, shared};
use crate::trail::sets::together;
use crate::trail::{Decided, Trail};
use jh_arena::table::Table;
use jh_name::{NoMemory, Row};
use std::alloc::Global;

/// What a look at an instance comes to: it is false, or these literals are forced, those that are decided already among them.
#[derive(Drop)]
pub enum Looked {
    False,
    Forces(Row<Decided>),
}

/// What is found of a formula that is known to be true or false.
fn found_known(holds: bool) -> Found
    ensures { (ts : List ValueTree) (ds : List Decided) (i : FormulaTree) → IsForm ts i (Known holds) → IsSeen ts ds i (list_in result) }
{
    if holds { Found::Nothing } else { Found::False }
}

/// What is found of a literal: it is false where its opposite is decided, and else forces itself.
fn found_literal(table: &Table, trail: &Trail, literal: Decided) -> Found
    ensures { (i : FormulaTree) → IsForm (nodes table.now) i (Literal literal) → IsSeen (nodes table.now) trail.now i (list_in result) }
{
    table.nodes_differ();
    match trail.said(literal.atom) {
        Some(holds) => if holds == literal.holds {
            Found::One(literal)
        } else {
            Found::False
        },
        None => Found::One(literal),
    }
}

/// What is found of an instance that is a node.
#[cycle(found)]
fn found_in(table: &Table, trail: &Trail, node: usize) -> Result<Found, NoMemory>
    requires { IsTruth (nodes table.now) node }
    ensures { IfOk result (λ found. IsSeen (nodes table.now) trail.now (truth_at (nodes table.now) node) (list_in found)) }
{
    match form_at(table, node) {
        Form::Known(holds) => Ok(found_known(holds)),
        Form::Literal(literal) => Ok(found_literal(table, trail, literal)),
        Form::And(a, b) => found_and(table, trail, node, a, b),
        Form::Or(a, b) => found_or(table, trail, node, a, b),
    }
}

/// What is found of two instances joined by And: what both force.
#[cycle(found)]
fn found_and(
    table: &Table,
    trail: &Trail,
    node: usize,
    a: usize,
    b: usize,
) -> Result<Found, NoMemory>
    requires { AreTwoParts (nodes table.now) node a b }
    ensures { IfOk result (λ found. IsSeen (nodes table.now) trail.now (t.and (truth_at (nodes table.now) a) (truth_at (nodes table.now) b)) (list_in found)) }
{
    let left = found_in(table, trail, a)?;
    if is_false(&left) {
        return Ok(Found::False);
    }
    let right = found_in(table, trail, b)?;
    if is_false(&right) {
        return Ok(Found::False);
    }
    Ok(listed(together(table.alloc(), items(&left), items(&right))?))
}

/// What is found of two instances joined by Or: what is forced by each that isn't false.
#[cycle(found)]
fn found_or(
    table: &Table,
    trail: &Trail,
    node: usize,
    a: usize,
    b: usize,
) -> Result<Found, NoMemory>
    requires { AreTwoParts (nodes table.now) node a b }
    ensures { IfOk result (λ found. IsSeen (nodes table.now) trail.now (t.or (truth_at (nodes table.now) a) (truth_at (nodes table.now) b)) (list_in found)) }
{
    let left = found_in(table, trail, a)?;
    if is_false(&left) {
        return found_in(table, trail, b);
    }
    if is_nothing(&left) {
        return Ok(Found::Nothing);
    }
    let right = found_in(table, trail, b)?;
    if is_false(&right) {
        return Ok(left);
    }
    shared(table.alloc(), &left, &right)
}

/// The same, with the literals as a list.
fn answer(alloc: Global, found: Found) -> Result<Looked, NoMemory>
    ensures { IfOk result (λ looked. list_of looked ≡ list_in found) }
{
    match found {
        Found::False => Ok(Looked::False),
        Found::Nothing => Ok(Looked::Forces(Row::of(Vec::new(alloc)))),
        Found::One(literal) => Ok(Looked::Forces(Row::of(vec![in alloc; literal]?))),
        Found::Many(list) => Ok(Looked::Forces(Row::of(list))),
    }
}

/// Looks at an instance that is a node: whether the decided literals make it false by its connectives alone, and where they don't,
/// for which literals this is so with the opposite of one put to them. Each such literal is listed, and no other. The answer is
/// want of memory where the tree nests deeper than MOST_LEVELS; no part of it is looked at then.
pub fn look(table: &Table, trail: &Trail, instance: usize) -> Result<Looked, NoMemory>
    requires { IsTruth (nodes table.now) instance }
    ensures { IfOk result (λ looked. IsSeen (nodes table.now) trail.now (truth_at (nodes table.now) instance) (list_of looked)) }
{
    if !table.is_shallow(instance) {
        return Err(NoMemory);
    }
    answer(table.alloc(), found_in(table, trail, instance)?)
}
