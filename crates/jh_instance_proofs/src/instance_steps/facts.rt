use crate::instance_steps::bodies::put;
use crate::instance_steps::choosing::{entry_at, is_marked};
use crate::instance_steps::pieces::{Piece, counts_of_piece, halves};
use crate::instance_steps::prelude::Prelude;
use crate::instance_steps::refuting::derive;
use crate::instance_steps::witnesses::Turns;
use jh_arena::table::Table;
use jh_deriv::jh_derivation_steps::premises::NodeStep;
use jh_instantiation::instances::NodeEntries;
use jh_name::NoMemory;
use jh_proof_builder::{Form, Stated, constant, form_of, laid_open, stated_node};

/// Where the parts of a fact are: the place of the next entry, and the turn of the next constant.
#[derive(Clone, Copy)]
pub(crate) struct Next {
    pub(crate) entry: usize,
    pub(crate) turn: u32,
}

/// Makes the next entry a fact, where it is wanted: it comes from this piece.
fn add_piece(
    table: &mut Table,
    entries: &NodeEntries,
    prelude: &mut Prelude,
    piece: Piece,
    is_there: bool,
    next: Next,
) -> Result<Next, NoMemory> {
    let count = counts_of_piece(table, piece)?;
    if is_marked(prelude.wanted.entries.as_slice(), next.entry) && !is_there {
        let entry = entry_at(entries, next.entry)?;
        let turns = Turns {
            next: next.turn,
            free: prelude.free,
        };
        derive(table, &mut prelude.line, piece, entry.formula, turns)?;
    }
    Ok(Next {
        entry: next.entry.saturating_add(1),
        turn: next.turn.saturating_add(count.constants),
    })
}

/// Whether the next entry is this fact itself.
fn is_itself(
    table: &mut Table,
    entries: &NodeEntries,
    said: Stated,
    next: Next,
) -> Result<bool, NoMemory> {
    let entry = entry_at(entries, next.entry)?;
    Ok(stated_node(table, said)? == entry.formula)
}

/// Makes the entries that come from a fact facts, from the next one on, as far as they are wanted.
#[cycle(add_parts)]
pub(crate) fn add_parts(
    table: &mut Table,
    entries: &NodeEntries,
    prelude: &mut Prelude,
    said: Stated,
    next: Next,
    levels: u64,
) -> Result<Next, NoMemory> {
    if levels == 0 {
        return Err(NoMemory);
    }
    let below = levels - 1;
    match form_of(table, said) {
        Form::Same(inside) => {
            laid_open(table, &mut prelude.line.steps, said)?;
            add_parts(table, entries, prelude, inside, next, below)
        }
        Form::Both(first, second) => {
            laid_open(table, &mut prelude.line.steps, said)?;
            let after = add_parts(table, entries, prelude, first, next, below)?;
            add_parts(table, entries, prelude, second, after, below)
        }
        Form::Some(body) => add_some(table, entries, prelude, said, body, next, below),
        Form::Alike(a, b) => {
            let (first, second) = halves(said, a, b);
            let after = add_piece(table, entries, prelude, Piece::Half(first), false, next)?;
            add_piece(table, entries, prelude, Piece::Half(second), false, after)
        }
        _ => {
            let itself = is_itself(table, entries, said, next)?;
            add_piece(table, entries, prelude, Piece::Whole(said), itself, next)
        }
    }
}

/// The same for what is said to be there: a constant stands for it.
#[cycle(add_parts)]
fn add_some(
    table: &mut Table,
    entries: &NodeEntries,
    prelude: &mut Prelude,
    said: Stated,
    body: Stated,
    next: Next,
    levels: u64,
) -> Result<Next, NoMemory> {
    let with = constant(table, next.turn)?;
    let fact = laid_open(table, &mut prelude.line.steps, said)?;
    prelude.line.add(NodeStep::Witness(fact, with))?;
    let inner = put(table, body, with)?;
    let after = Next {
        entry: next.entry,
        turn: next.turn.saturating_add(1),
    };
    add_parts(table, entries, prelude, inner, after, levels)
}
