use crate::instance_steps::bodies::body_of;
use crate::instance_steps::counting::NONE;
use crate::instance_steps::pieces::Piece;
use crate::instance_steps::walking::{Spot, walk, walk_half};
use crate::instance_steps::witnesses::{Turns, witness_piece};
use jh_arena::table::Table;
use jh_deriv::jh_derivation_steps::premises::NodeStep;
use jh_name::NoMemory;
use jh_proof_builder::{Line, MOST_NESTED, add_step, constant, denied, laid_open, opened};

/// A formula whose variables in front have constants, with these and the turn behind them.
#[derive(Drop)]
struct Stripped {
    body: usize,
    variables: Vec<usize>,
    free: u32,
}

/// Writes the steps that put a constant for the variable in front of a universal whose negation is a fact, and takes that one off.
fn strip_one(
    table: &mut Table,
    steps: &mut Vec<NodeStep>,
    stripped: &mut Stripped,
    inside: usize,
) -> Result<(), NoMemory> {
    let with = constant(table, stripped.free)?;
    let denial = laid_open(table, steps, denied(stripped.body))?;
    add_step(steps, NodeStep::Witness(denial, with))?;
    stripped.body = opened(table, inside, with)?;
    stripped.free = stripped.free.saturating_add(1);
    stripped.variables.push(with)?;
    Ok(())
}

/// Writes the steps that put constants for all variables in front of a formula whose negation is a fact.
fn strip(
    table: &mut Table,
    steps: &mut Vec<NodeStep>,
    stripped: &mut Stripped,
) -> Result<(), NoMemory> {
    for _level in 0..MOST_NESTED {
        match body_of(table, stripped.body, true) {
            Some(inside) => strip_one(table, steps, stripped, inside)?,
            None => return Ok(()),
        }
    }
    Err(NoMemory)
}

/// Writes the steps that close a branch in which a piece is a fact, and the negation of an entry without its variables in front.
fn refute(
    table: &mut Table,
    steps: &mut Vec<NodeStep>,
    piece: Piece,
    stripped: &Stripped,
    first: u32,
) -> Result<(), NoMemory> {
    let spot = Spot {
        first,
        variables: stripped.variables.as_slice(),
        passed: NONE,
        under_each: false,
        under_some: false,
        free: stripped.free,
    };
    let target = stripped.body;
    match piece {
        Piece::Whole(said) => walk(table, steps, said, target, &spot, MOST_NESTED),
        Piece::Half(half) => walk_half(table, steps, half, target, &spot, MOST_NESTED),
    }
}

/// Steps that close a branch in which the negation of an entry is a fact, and so is the piece that it comes from.
fn refuted(
    table: &mut Table,
    piece: Piece,
    target: usize,
    turns: Turns,
) -> Result<Vec<NodeStep>, NoMemory> {
    let mut steps = Vec::new(table.alloc());
    let mut stripped = Stripped {
        body: target,
        variables: Vec::new(table.alloc()),
        free: turns.free,
    };
    strip(table, &mut steps, &mut stripped)?;
    refute(table, &mut steps, piece, &stripped, turns.next)?;
    Ok(steps)
}

/// Makes an entry a fact that comes from a piece, which is one.
pub(crate) fn derive(
    table: &mut Table,
    line: &mut Line,
    piece: Piece,
    target: usize,
    turns: Turns,
) -> Result<(), NoMemory> {
    witness_piece(table, line, piece, turns)?;
    let side = refuted(table, piece, target, turns)?;
    line.add(NodeStep::Cut(target))?;
    line.leave(side)
}
