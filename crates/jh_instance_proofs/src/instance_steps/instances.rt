use crate::instance_steps::bodies::{body_of, body_under};
use crate::instance_steps::choosing::entry_at;
use crate::instance_steps::pieces::Piece;
use crate::instance_steps::prelude::Prelude;
use crate::instance_steps::refuting::derive;
use crate::instance_steps::witnesses::Turns;
use indexmap::IndexSet;
use jh_arena::table::Table;
use jh_deriv::jh_derivation_steps::premises::NodeStep;
use jh_instantiation::instances::{NodeEntries, NodeEntry};
use jh_name::NoMemory;
use jh_proof_builder::{MOST_NESTED, asserted, constant, opened};

/// Notes a fact, and answers whether it is new.
fn note(facts: &mut IndexSet<usize>, fact: usize) -> Result<bool, NoMemory> {
    Ok(facts.insert(fact)?)
}

/// Makes a universal fact a fact at a term, and answers what that is.
fn put_one(
    table: &mut Table,
    prelude: &mut Prelude,
    node: usize,
    with: usize,
) -> Result<usize, NoMemory> {
    let body = body_under(table, node, true)?;
    let made = opened(table, body, with)?;
    if note(&mut prelude.facts, made)? {
        prelude.line.add(NodeStep::Instance(node, with))?;
    }
    Ok(made)
}

/// The term at a place.
fn term_at(entries: &NodeEntries, place: usize) -> Result<usize, NoMemory> {
    match entries.terms.get(place) {
        Some(term) => Ok(*term),
        None => Err(NoMemory),
    }
}

/// Makes a universal a fact at the terms of an entry, and answers what that is.
fn put_all(
    table: &mut Table,
    entries: &NodeEntries,
    prelude: &mut Prelude,
    universal: usize,
    entry: NodeEntry,
) -> Result<usize, NoMemory> {
    let mut node = universal;
    for index in 0..entry.variables {
        let term = term_at(entries, entry.terms.saturating_add(index))?;
        node = put_one(table, prelude, node, term)?;
    }
    Ok(node)
}

/// A fact in front of which nothing is said to be there, and the turn of the next constant.
#[derive(Clone, Copy)]
struct Bare {
    node: usize,
    turn: u32,
}

/// Makes what is said to be there in front of a fact a fact, at a constant.
fn name_one(
    table: &mut Table,
    prelude: &mut Prelude,
    bare: Bare,
    body: usize,
) -> Result<Bare, NoMemory> {
    let with = constant(table, bare.turn)?;
    prelude.line.add(NodeStep::Witness(bare.node, with))?;
    Ok(Bare {
        node: opened(table, body, with)?,
        turn: bare.turn.saturating_add(1),
    })
}

/// Makes what is said to be there in front of a fact facts, at constants.
fn name_front(
    table: &mut Table,
    prelude: &mut Prelude,
    node: usize,
    first: u32,
) -> Result<Bare, NoMemory> {
    let mut bare = Bare { node, turn: first };
    for _level in 0..MOST_NESTED {
        match body_of(table, bare.node, false) {
            Some(body) => bare = name_one(table, prelude, bare, body)?,
            None => return Ok(bare),
        }
    }
    Err(NoMemory)
}

/// Makes the entry of a universal that was put at terms a fact.
pub(crate) fn add_instance(
    table: &mut Table,
    entries: &NodeEntries,
    prelude: &mut Prelude,
    entry: NodeEntry,
    source: usize,
) -> Result<(), NoMemory> {
    let universal = entry_at(entries, source)?.formula;
    let there = put_all(table, entries, prelude, universal, entry)?;
    let bare = name_front(table, prelude, there, entry.first)?;
    if bare.node == entry.formula {
        return Ok(());
    }
    let turns = Turns {
        next: bare.turn,
        free: prelude.free,
    };
    derive(
        table,
        &mut prelude.line,
        Piece::Whole(asserted(bare.node)),
        entry.formula,
        turns,
    )
}
