use crate::instance_steps::choosing::{Wanted, entry_at, is_marked, wanted_for};
use crate::instance_steps::facts::{Next, add_parts};
use crate::instance_steps::instances::add_instance;
use indexmap::IndexSet;
use jh_arena::table::Table;
use jh_instantiation::instances::{NodeEntries, Origin};
use jh_name::NoMemory;
use jh_proof_builder::{Line, MOST_NESTED, Stated};

/// Steps that make entries facts: the line so far, which entries are wanted, instances that are facts by now, and the turn of the first
/// constant that no entry has.
#[derive(Drop)]
pub(crate) struct Prelude {
    pub(crate) line: Line,
    pub(crate) wanted: Wanted,
    pub(crate) facts: IndexSet<usize>,
    pub(crate) free: u32,
}

/// The turn behind those of the constants of all entries.
fn free_turn(entries: &NodeEntries) -> u32 {
    let mut free = 0;
    for entry in &entries.items {
        let behind = entry.first.saturating_add(entry.fresh);
        if behind > free {
            free = behind;
        }
    }
    free
}

/// The place of the first entry that comes from a fact, with the turn of the first constant of it.
fn first_of(entries: &NodeEntries, number: usize) -> Option<Next> {
    for place in 0..entries.items.len() {
        if let Some(entry) = entries.items.get(place) {
            if entry.source == Origin::Fact(number) {
                return Some(Next {
                    entry: place,
                    turn: entry.first,
                });
            }
        }
    }
    None
}

/// Makes the entries that come from the fact of a number facts, where it is wanted.
fn add_fact_at(
    table: &mut Table,
    entries: &NodeEntries,
    prelude: &mut Prelude,
    facts: &[Stated],
    number: usize,
) -> Result<(), NoMemory> {
    if !is_marked(prelude.wanted.facts.as_slice(), number) {
        return Ok(());
    }
    match (facts.get(number), first_of(entries, number)) {
        (Some(fact), Some(next)) => {
            add_parts(table, entries, prelude, *fact, next, MOST_NESTED)?;
            Ok(())
        }
        _ => Err(NoMemory),
    }
}

/// Makes the entry at a place a fact, where it is wanted and comes from another entry.
fn add_entry_at(
    table: &mut Table,
    entries: &NodeEntries,
    prelude: &mut Prelude,
    place: usize,
) -> Result<(), NoMemory> {
    if !is_marked(prelude.wanted.entries.as_slice(), place) {
        return Ok(());
    }
    let entry = entry_at(entries, place)?;
    match entry.source {
        Origin::Fact(_) => Ok(()),
        Origin::Entry(source) => add_instance(table, entries, prelude, entry, source),
    }
}

/// Makes the entries that are wanted facts: those that come from facts, and then those that come from entries.
fn add_all(
    table: &mut Table,
    entries: &NodeEntries,
    prelude: &mut Prelude,
    facts: &[Stated],
) -> Result<(), NoMemory> {
    for number in 0..facts.len() {
        add_fact_at(table, entries, prelude, facts, number)?;
    }
    for place in 0..entries.items.len() {
        add_entry_at(table, entries, prelude, place)?;
    }
    Ok(())
}

/// Writes steps that make facts of instances that are used, which are given by their places among the instances. The facts of the sequent
/// are given as they are stated there. The table has the entries.
pub fn write_entries(
    table: &mut Table,
    entries: &NodeEntries,
    facts: &[Stated],
    used: &IndexSet<usize>,
) -> Result<Line, NoMemory> {
    let alloc = table.alloc();
    let mut prelude = Prelude {
        wanted: wanted_for(table, entries, facts.len(), used)?,
        line: Line::new(alloc),
        facts: IndexSet::new(alloc),
        free: free_turn(entries),
    };
    add_all(table, entries, &mut prelude, facts)?;
    let Prelude {
        line,
        wanted: _wanted,
        facts: _facts,
        free: _free,
    } = prelude;
    Ok(line)
}
