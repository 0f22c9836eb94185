use jh_arena::table::{Shape, Table};
use jh_name::NoMemory;
use jh_proof_builder::jh_derivation_steps::premises::NodeStep;
use jh_proof_builder::{MOST_NESTED, add_step, is_formula, shape_of};
use jh_search::jh_propagation::trail::{Looked, Trail, look};

/// Looks at a node: what the literals of the trail make of it. The answer is want of memory where it is no formula.
pub(crate) fn looked(table: &Table, trail: &Trail, node: usize) -> Result<Looked, NoMemory> {
    if is_formula(table, node) {
        look(table, trail, node)
    } else {
        Err(NoMemory)
    }
}

/// Whether a formula is false where the literals of the trail hold.
pub(crate) fn is_false(table: &Table, trail: &Trail, node: usize) -> Result<bool, NoMemory> {
    match looked(table, trail, node)? {
        Looked::False => Ok(true),
        Looked::Forces(_) => Ok(false),
    }
}

/// Closes a branch in which the negation of a formula is a fact that is false.
fn close_denied(
    table: &Table,
    steps: &mut Vec<NodeStep>,
    node: usize,
    inside: usize,
) -> Result<(), NoMemory> {
    match shape_of(table, inside) {
        Shape::True => {
            add_step(steps, NodeStep::Inward(node))?;
            add_step(steps, NodeStep::Absurd)
        }
        _ => add_step(steps, NodeStep::Pair(inside)),
    }
}

/// Closes a branch in which this formula is a fact, the literals of the trail are, and they make it false.
#[cycle(close_false)]
fn close_level(
    table: &Table,
    trail: &Trail,
    steps: &mut Vec<NodeStep>,
    node: usize,
    levels: u64,
) -> Result<(), NoMemory> {
    if levels == 0 {
        return Err(NoMemory);
    }
    match shape_of(table, node) {
        Shape::And(a, b) => close_and(table, trail, steps, node, a, b, levels - 1),
        Shape::Or(a, b) => close_or(table, trail, steps, node, a, b, levels - 1),
        Shape::Negation(a) => close_denied(table, steps, node, a),
        Shape::False => add_step(steps, NodeStep::Absurd),
        _ => add_step(steps, NodeStep::Pair(node)),
    }
}

/// The same of two formulas joined by And: one of them is false.
#[cycle(close_false)]
fn close_and(
    table: &Table,
    trail: &Trail,
    steps: &mut Vec<NodeStep>,
    node: usize,
    a: usize,
    b: usize,
    levels: u64,
) -> Result<(), NoMemory> {
    add_step(steps, NodeStep::Conjuncts(node))?;
    if is_false(table, trail, a)? {
        close_level(table, trail, steps, a, levels)
    } else {
        close_level(table, trail, steps, b, levels)
    }
}

/// The same of two formulas joined by Or: both are false.
#[cycle(close_false)]
fn close_or(
    table: &Table,
    trail: &Trail,
    steps: &mut Vec<NodeStep>,
    node: usize,
    a: usize,
    b: usize,
    levels: u64,
) -> Result<(), NoMemory> {
    add_step(steps, NodeStep::Disjuncts(node))?;
    close_level(table, trail, steps, a, levels)?;
    close_level(table, trail, steps, b, levels)
}

/// Writes steps that close a branch in which an instance is a fact, the literals of the trail are, and they make it false.
pub(crate) fn close_false(
    table: &Table,
    trail: &Trail,
    steps: &mut Vec<NodeStep>,
    node: usize,
) -> Result<(), NoMemory> {
    close_level(table, trail, steps, node, MOST_NESTED)
}
