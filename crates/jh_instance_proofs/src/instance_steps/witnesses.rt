use crate::instance_steps::bodies::{body_under, put};
use crate::instance_steps::pieces::{Half, Piece, counts_of, counts_of_half, halves, sides};
use jh_arena::makers::null;
use jh_arena::table::Table;
use jh_deriv::jh_derivation_steps::premises::NodeStep;
use jh_name::NoMemory;
use jh_proof_builder::{
    Form, Line, MOST_NESTED, Stated, add_step, asserted, constant, denied, disjunction, existence,
    form_of, laid_open, negation, opened,
};

/// Where constants are made: the turn of the next one, and that of the first that stands in no fact.
#[derive(Clone, Copy)]
pub(crate) struct Turns {
    pub(crate) next: u32,
    pub(crate) free: u32,
}

/// Behind so many constants.
fn behind(turns: Turns, count: u32) -> Turns {
    Turns {
        next: turns.next.saturating_add(count),
        ..turns
    }
}

/// Writes a step that opens a universal at a term, and answers what it adds.
fn instance(
    table: &mut Table,
    steps: &mut Vec<NodeStep>,
    fact: usize,
    body: usize,
    with: usize,
) -> Result<usize, NoMemory> {
    add_step(steps, NodeStep::Instance(fact, with))?;
    opened(table, body, with)
}

/// Writes the steps that take apart that neither of two formulas joined by Or is so.
fn neither(table: &mut Table, steps: &mut Vec<NodeStep>, denial: usize) -> Result<(), NoMemory> {
    match form_of(table, asserted(denial)) {
        Form::Same(either) => {
            laid_open(table, steps, either)?;
            Ok(())
        }
        _ => Err(NoMemory),
    }
}

/// Steps that close a branch in which there is nothing that is what is said to be there, or of which nothing is said to be there. So
/// for any term it is said to be there; a constant stands for it, and it is what is said to be there.
fn nothing_closed(
    table: &mut Table,
    fact: usize,
    body: usize,
    either: usize,
    free: u32,
) -> Result<Vec<NodeStep>, NoMemory> {
    let mut steps = Vec::new(table.alloc());
    let all = existence(table, either)?;
    let none = laid_open(table, &mut steps, denied(all))?;
    let denial = negation(table, either)?;
    let nothing = null(table)?;
    let first = instance(table, &mut steps, none, denial, nothing)?;
    neither(table, &mut steps, first)?;
    let absent = negation(table, fact)?;
    laid_open(table, &mut steps, denied(absent))?;
    let with = constant(table, free)?;
    add_step(&mut steps, NodeStep::Witness(fact, with))?;
    let second = instance(table, &mut steps, none, denial, with)?;
    neither(table, &mut steps, second)?;
    let there = opened(table, body, with)?;
    add_step(&mut steps, NodeStep::Pair(there))?;
    Ok(steps)
}

/// Makes it a fact that a constant is what is said to be there, where anything is.
fn choose(
    table: &mut Table,
    line: &mut Line,
    fact: usize,
    with: usize,
    free: u32,
) -> Result<(), NoMemory> {
    let body = body_under(table, fact, false)?;
    let absent = negation(table, fact)?;
    let either = disjunction(table, absent, body)?;
    let all = existence(table, either)?;
    let side = nothing_closed(table, fact, body, either, free)?;
    line.add(NodeStep::Cut(all))?;
    line.leave(side)?;
    line.add(NodeStep::Witness(all, with))
}

/// The node of what is said to be there, with its quantifier in front.
fn quantified(table: &mut Table, said: Stated) -> Result<usize, NoMemory> {
    let mut steps = Vec::new(table.alloc());
    laid_open(table, &mut steps, said)
}

/// Makes the choices of constants facts for all that is said to be there in a formula and becomes a constant.
#[cycle(witness)]
fn witness(
    table: &mut Table,
    line: &mut Line,
    said: Stated,
    turns: Turns,
    levels: u64,
) -> Result<(), NoMemory> {
    if levels == 0 {
        return Err(NoMemory);
    }
    let below = levels - 1;
    match form_of(table, said) {
        Form::Same(inside) => witness(table, line, inside, turns, below),
        Form::Both(first, second) => witness_two(table, line, first, second, turns, below),
        Form::Either(first, second) => witness_two(table, line, first, second, turns, below),
        Form::Alike(a, b) => witness_halves(table, line, halves(said, a, b), turns, below),
        Form::Each(_) => Ok(()),
        Form::Some(body) => witness_some(table, line, said, body, turns, below),
        Form::Literal => Ok(()),
    }
}

/// The same for two formulas.
#[cycle(witness)]
fn witness_two(
    table: &mut Table,
    line: &mut Line,
    first: Stated,
    second: Stated,
    turns: Turns,
    levels: u64,
) -> Result<(), NoMemory> {
    let passed = counts_of(table, first, false)?;
    witness(table, line, first, turns, levels)?;
    witness(table, line, second, behind(turns, passed.constants), levels)
}

/// The same for the two formulas of a half of an equivalence.
#[cycle(witness)]
fn witness_half(
    table: &mut Table,
    line: &mut Line,
    half: Half,
    turns: Turns,
    levels: u64,
) -> Result<(), NoMemory> {
    let (first, second) = sides(half);
    witness_two(table, line, first, second, turns, levels)
}

/// The same for both halves of an equivalence.
#[cycle(witness)]
fn witness_halves(
    table: &mut Table,
    line: &mut Line,
    two: (Half, Half),
    turns: Turns,
    levels: u64,
) -> Result<(), NoMemory> {
    let passed = counts_of_half(table, two.0, false)?;
    witness_half(table, line, two.0, turns, levels)?;
    witness_half(table, line, two.1, behind(turns, passed.constants), levels)
}

/// The same for what is said to be there.
#[cycle(witness)]
fn witness_some(
    table: &mut Table,
    line: &mut Line,
    said: Stated,
    body: Stated,
    turns: Turns,
    levels: u64,
) -> Result<(), NoMemory> {
    let fact = quantified(table, said)?;
    let with = constant(table, turns.next)?;
    choose(table, line, fact, with, turns.free)?;
    let inner = put(table, body, with)?;
    witness(table, line, inner, behind(turns, 1), levels)
}

/// Makes the choices of constants facts for a piece.
pub(crate) fn witness_piece(
    table: &mut Table,
    line: &mut Line,
    piece: Piece,
    turns: Turns,
) -> Result<(), NoMemory> {
    match piece {
        Piece::Whole(said) => witness(table, line, said, turns, MOST_NESTED),
        Piece::Half(half) => witness_half(table, line, half, turns, MOST_NESTED),
    }
}
