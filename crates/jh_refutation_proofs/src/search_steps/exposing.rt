use crate::search_steps::falsity::{close_false, is_false};
use jh_arena::table::{Shape, Table};
use jh_name::NoMemory;
use jh_proof_builder::jh_derivation_steps::premises::NodeStep;
use jh_proof_builder::{Line, MOST_NESTED, shape_of};
use jh_search::jh_propagation::trail::{Decided, Trail};

/// Whether a node is that of a literal.
fn is_literal(table: &Table, node: usize, literal: Decided) -> bool {
    if literal.holds {
        return node == literal.atom;
    }
    match shape_of(table, node) {
        Shape::Negation(a) => a == literal.atom,
        _ => false,
    }
}

/// Whether a literal is all that is left of a formula where the literals of the trail hold: of two that are joined by Or one is false,
/// of two that are joined by And it is left of one.
#[cycle(is_left)]
fn is_left(
    table: &Table,
    trail: &Trail,
    node: usize,
    literal: Decided,
    levels: u64,
) -> Result<bool, NoMemory> {
    if levels == 0 {
        return Err(NoMemory);
    }
    match shape_of(table, node) {
        Shape::And(a, b) => is_left_of_one(table, trail, a, b, literal, levels - 1),
        Shape::Or(a, b) => is_left_of_other(table, trail, a, b, literal, levels - 1),
        _ => Ok(is_literal(table, node, literal)),
    }
}

/// Whether it is left of one of two.
#[cycle(is_left)]
fn is_left_of_one(
    table: &Table,
    trail: &Trail,
    a: usize,
    b: usize,
    literal: Decided,
    levels: u64,
) -> Result<bool, NoMemory> {
    if is_left(table, trail, a, literal, levels)? {
        return Ok(true);
    }
    is_left(table, trail, b, literal, levels)
}

/// Whether one of two is false and it is left of the other one.
#[cycle(is_left)]
fn is_left_of_other(
    table: &Table,
    trail: &Trail,
    a: usize,
    b: usize,
    literal: Decided,
    levels: u64,
) -> Result<bool, NoMemory> {
    if is_false(table, trail, a)? {
        return is_left(table, trail, b, literal, levels);
    }
    if is_false(table, trail, b)? {
        return is_left(table, trail, a, literal, levels);
    }
    Ok(false)
}

/// Whether a literal is all that is left of an instance.
pub(crate) fn is_unit(
    table: &Table,
    trail: &Trail,
    instance: usize,
    literal: Decided,
) -> Result<bool, NoMemory> {
    is_left(table, trail, instance, literal, MOST_NESTED)
}

/// Closes the branch of the part that is false of two joined by Or, and answers the other one.
fn other_part(
    table: &Table,
    trail: &Trail,
    line: &mut Line,
    node: usize,
    a: usize,
    b: usize,
) -> Result<usize, NoMemory> {
    line.add(NodeStep::Disjuncts(node))?;
    if is_false(table, trail, a)? {
        close_false(table, trail, &mut line.steps, a)?;
        return Ok(b);
    }
    let mut side = Vec::new(table.alloc());
    close_false(table, trail, &mut side, b)?;
    line.leave(side)?;
    Ok(a)
}

/// Takes two formulas joined by And apart, and answers the one of which a literal is left.
fn left_part(
    table: &Table,
    trail: &Trail,
    line: &mut Line,
    node: usize,
    a: usize,
    b: usize,
    literal: Decided,
) -> Result<usize, NoMemory> {
    line.add(NodeStep::Conjuncts(node))?;
    if is_unit(table, trail, a, literal)? {
        Ok(a)
    } else {
        Ok(b)
    }
}

/// Makes a literal a fact that is all that is left of an instance, which is one.
pub(crate) fn expose(
    table: &Table,
    trail: &Trail,
    line: &mut Line,
    instance: usize,
    literal: Decided,
) -> Result<(), NoMemory> {
    let mut node = instance;
    for _level in 0..MOST_NESTED {
        match shape_of(table, node) {
            Shape::And(a, b) => node = left_part(table, trail, line, node, a, b, literal)?,
            Shape::Or(a, b) => node = other_part(table, trail, line, node, a, b)?,
            _ => return Ok(()),
        }
    }
    Err(NoMemory)
}
