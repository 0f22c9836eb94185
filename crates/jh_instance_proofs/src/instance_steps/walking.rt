use crate::instance_steps::bodies::{body_under, put};
use crate::instance_steps::counting::{Counts, ONE_CONSTANT, ONE_VARIABLE, sum};
use crate::instance_steps::pieces::{Half, counts_of, counts_of_half, halves, sides};
use jh_arena::table::{Shape, Table};
use jh_deriv::jh_derivation_steps::premises::NodeStep;
use jh_name::NoMemory;
use jh_proof_builder::{
    Form, Stated, add_step, constant, denied, disjunction, form_of, laid_open, negation, opened,
    shape_of, stated_node,
};

/// How far a walk is that goes over a fact and its normal form together. From its beginning on it has the turn of the first constant of
/// the entry, and the constants that stand for the variables in front of it. Then: how many constants and variables were passed, whether
/// a universal was, whether something that is said to be there and has no constant was, and the turn of the first constant that stands in
/// no fact.
#[derive(Clone, Copy)]
pub(crate) struct Spot<'a> {
    pub(crate) first: u32,
    pub(crate) variables: &'a [usize],
    pub(crate) passed: Counts,
    pub(crate) under_each: bool,
    pub(crate) under_some: bool,
    pub(crate) free: u32,
}

/// Behind these.
fn behind<'a>(spot: &Spot<'a>, passed: Counts) -> Spot<'a> {
    Spot {
        passed: sum(spot.passed, passed),
        ..*spot
    }
}

/// Behind a variable.
fn under_variable<'a>(spot: &Spot<'a>) -> Spot<'a> {
    Spot {
        under_each: true,
        ..behind(spot, ONE_VARIABLE)
    }
}

/// Behind a quantifier that stays where it is: this one, or one before it, says that something is there and has no constant.
fn under_inner<'a>(spot: &Spot<'a>) -> Spot<'a> {
    Spot {
        under_some: true,
        free: spot.free.saturating_add(1),
        ..*spot
    }
}

/// The constant that stands for the variable of a number.
fn variable(spot: &Spot<'_>, number: usize) -> Result<usize, NoMemory> {
    match spot.variables.get(number) {
        Some(node) => Ok(*node),
        None => Err(NoMemory),
    }
}

/// The two parts of a normal form.
fn parts_of(table: &Table, target: usize, conjoined: bool) -> Result<(usize, usize), NoMemory> {
    match shape_of(table, target) {
        Shape::And(a, b) => if conjoined { Ok((a, b)) } else { Err(NoMemory) },
        Shape::Or(a, b) => if conjoined { Err(NoMemory) } else { Ok((a, b)) },
        _ => Err(NoMemory),
    }
}

/// Closes a branch in which this is a fact, and the negation of its normal form is one: with constants for what is said to be there,
/// and the constants that the place has for the variables in front.
#[cycle(walk)]
pub(crate) fn walk(
    table: &mut Table,
    steps: &mut Vec<NodeStep>,
    said: Stated,
    target: usize,
    spot: &Spot<'_>,
    levels: u64,
) -> Result<(), NoMemory> {
    if levels == 0 {
        return Err(NoMemory);
    }
    if stated_node(table, said)? == target {
        return add_step(steps, NodeStep::Pair(target));
    }
    walk_form(table, steps, said, target, spot, levels - 1)
}

/// The same where the fact isn't its normal form.
#[cycle(walk)]
fn walk_form(
    table: &mut Table,
    steps: &mut Vec<NodeStep>,
    said: Stated,
    target: usize,
    spot: &Spot<'_>,
    levels: u64,
) -> Result<(), NoMemory> {
    match form_of(table, said) {
        Form::Same(inside) => {
            laid_open(table, steps, said)?;
            walk(table, steps, inside, target, spot, levels)
        }
        Form::Both(a, b) => walk_two(table, steps, said, (a, b), target, true, spot, levels),
        Form::Either(a, b) => walk_two(table, steps, said, (a, b), target, false, spot, levels),
        Form::Alike(a, b) => walk_halves(table, steps, halves(said, a, b), target, spot, levels),
        Form::Each(body) => if spot.under_some {
            walk_inner(table, steps, said, body, target, true, spot, levels)
        } else {
            walk_each(table, steps, said, body, target, spot, levels)
        },
        Form::Some(body) => if spot.under_each {
            walk_inner(table, steps, said, body, target, false, spot, levels)
        } else {
            walk_some(table, steps, said, body, target, spot, levels)
        },
        Form::Literal => Err(NoMemory),
    }
}

/// The same where a fact says both of two, or one of two: of the fact and the negation of its normal form the one that makes two
/// branches is laid open last, and each branch has one of the two and the negation of its normal form.
#[cycle(walk)]
fn walk_two(
    table: &mut Table,
    steps: &mut Vec<NodeStep>,
    said: Stated,
    two: (Stated, Stated),
    target: usize,
    conjoined: bool,
    spot: &Spot<'_>,
    levels: u64,
) -> Result<(), NoMemory> {
    let parts = parts_of(table, target, conjoined)?;
    let denial = denied(target);
    laid_open(table, steps, if conjoined { said } else { denial })?;
    laid_open(table, steps, if conjoined { denial } else { said })?;
    let passed = counts_of(table, two.0, spot.under_each)?;
    walk(table, steps, two.0, parts.0, spot, levels)?;
    let later = behind(spot, passed);
    walk(table, steps, two.1, parts.1, &later, levels)
}

/// Closes a branch in which an equivalence is a fact: both halves of its normal form are gone over.
#[cycle(walk)]
fn walk_halves(
    table: &mut Table,
    steps: &mut Vec<NodeStep>,
    two: (Half, Half),
    target: usize,
    spot: &Spot<'_>,
    levels: u64,
) -> Result<(), NoMemory> {
    let parts = parts_of(table, target, true)?;
    let passed = counts_of_half(table, two.0, spot.under_each)?;
    laid_open(table, steps, denied(target))?;
    walk_half(table, steps, two.0, parts.0, spot, levels)?;
    let later = behind(spot, passed);
    walk_half(table, steps, two.1, parts.1, &later, levels)
}

/// Closes a branch in which an equivalence is a fact, and the negation of a half of its normal form is one.
#[cycle(walk)]
pub(crate) fn walk_half(
    table: &mut Table,
    steps: &mut Vec<NodeStep>,
    half: Half,
    target: usize,
    spot: &Spot<'_>,
    levels: u64,
) -> Result<(), NoMemory> {
    let parts = parts_of(table, target, false)?;
    laid_open(table, steps, denied(target))?;
    laid_open(table, steps, half.whole)?;
    let (first, second) = sides(half);
    let passed = counts_of(table, first, spot.under_each)?;
    let later = behind(spot, passed);
    if half.is_first && !half.whole.holds {
        walk(table, steps, first, parts.0, spot, levels)?;
        let right = negation(table, half.right)?;
        walk(table, steps, denied(right), parts.1, &later, levels)
    } else {
        walk(table, steps, second, parts.1, &later, levels)?;
        walk(table, steps, first, parts.0, spot, levels)
    }
}

/// Closes a branch in which a universal is a fact that was pulled to the front.
#[cycle(walk)]
fn walk_each(
    table: &mut Table,
    steps: &mut Vec<NodeStep>,
    said: Stated,
    body: Stated,
    target: usize,
    spot: &Spot<'_>,
    levels: u64,
) -> Result<(), NoMemory> {
    let with = variable(spot, spot.passed.variables)?;
    let fact = laid_open(table, steps, said)?;
    add_step(steps, NodeStep::Instance(fact, with))?;
    let inner = put(table, body, with)?;
    walk(table, steps, inner, target, &under_variable(spot), levels)
}

/// The fact by which a constant is what is said to be there: either nothing is, or the constant is.
fn choice(table: &mut Table, fact: usize, inner: Stated) -> Result<usize, NoMemory> {
    let none = negation(table, fact)?;
    let one = stated_node(table, inner)?;
    disjunction(table, none, one)
}

/// Closes a branch in which it is a fact that something is there for which a constant stands.
#[cycle(walk)]
fn walk_some(
    table: &mut Table,
    steps: &mut Vec<NodeStep>,
    said: Stated,
    body: Stated,
    target: usize,
    spot: &Spot<'_>,
    levels: u64,
) -> Result<(), NoMemory> {
    let turn = spot.first.saturating_add(spot.passed.constants);
    let with = constant(table, turn)?;
    let fact = laid_open(table, steps, said)?;
    let inner = put(table, body, with)?;
    let either = choice(table, fact, inner)?;
    add_step(steps, NodeStep::Disjuncts(either))?;
    add_step(steps, NodeStep::Pair(fact))?;
    let later = behind(spot, ONE_CONSTANT);
    walk(table, steps, inner, target, &later, levels)
}

/// Closes a branch in which a quantifier is a fact that stays where it is, a universal or what is said to be there. Of the fact and the
/// negation of its normal form one says that something is there: a constant stands for it, at which the other one is opened.
#[cycle(walk)]
fn walk_inner(
    table: &mut Table,
    steps: &mut Vec<NodeStep>,
    said: Stated,
    body: Stated,
    target: usize,
    each: bool,
    spot: &Spot<'_>,
    levels: u64,
) -> Result<(), NoMemory> {
    let inside = body_under(table, target, each)?;
    let with = constant(table, spot.free)?;
    let denial = denied(target);
    let there = laid_open(table, steps, if each { denial } else { said })?;
    add_step(steps, NodeStep::Witness(there, with))?;
    let universal = laid_open(table, steps, if each { said } else { denial })?;
    add_step(steps, NodeStep::Instance(universal, with))?;
    let inner = put(table, body, with)?;
    let half = opened(table, inside, with)?;
    walk(table, steps, inner, half, &under_inner(spot), levels)
}
