use indexmap::IndexSet;
use jh_arena::table::Table;
use jh_instantiation::instances::{NodeEntries, NodeEntry, Origin};
use jh_instantiation::skolem_constants::is_ground;
use jh_name::NoMemory;
use jh_proof_builder::is_formula;

/// Which entries and which facts are wanted, by their places.
#[derive(Drop)]
pub(crate) struct Wanted {
    pub(crate) entries: Vec<bool>,
    pub(crate) facts: Vec<bool>,
}

/// Whether a place is marked.
pub(crate) fn is_marked(marks: &[bool], place: usize) -> bool {
    match marks.get(place) {
        Some(mark) => *mark,
        None => false,
    }
}

/// Marks a place.
fn mark(marks: &mut Vec<bool>, place: usize) {
    if place < marks.len() {
        marks[place] = true;
    }
}

/// The entry at a place.
pub(crate) fn entry_at(entries: &NodeEntries, place: usize) -> Result<NodeEntry, NoMemory> {
    match entries.items.get(place) {
        Some(entry) => Ok(*entry),
        None => Err(NoMemory),
    }
}

/// Whether a node is that of a formula without a quantifier.
fn is_instance(table: &Table, node: usize) -> bool {
    if is_formula(table, node) {
        is_ground(table, node)
    } else {
        false
    }
}

/// Marks the entries that are used instances: those of these places among the entries without a quantifier.
fn mark_used(
    table: &Table,
    entries: &NodeEntries,
    used: &IndexSet<usize>,
    marks: &mut Vec<bool>,
) -> Result<(), NoMemory> {
    let mut count: usize = 0;
    for place in 0..entries.items.len() {
        if is_instance(table, entry_at(entries, place)?.formula) {
            if used.contains(&count) {
                mark(marks, place);
            }
            count = count.saturating_add(1);
        }
    }
    Ok(())
}

/// Marks what an entry comes from.
fn mark_source(entry: NodeEntry, wanted: &mut Wanted) {
    match entry.source {
        Origin::Fact(number) => mark(&mut wanted.facts, number),
        Origin::Entry(place) => mark(&mut wanted.entries, place),
    }
}

/// Marks what the entry at a place comes from, where that is marked.
fn mark_before(entries: &NodeEntries, wanted: &mut Wanted, place: usize) -> Result<(), NoMemory> {
    if is_marked(wanted.entries.as_slice(), place) {
        mark_source(entry_at(entries, place)?, wanted);
    }
    Ok(())
}

/// Marks the entries and the facts from which these instances come.
fn mark_all(
    table: &Table,
    entries: &NodeEntries,
    used: &IndexSet<usize>,
    wanted: &mut Wanted,
) -> Result<(), NoMemory> {
    let count = entries.items.len();
    mark_used(table, entries, used, &mut wanted.entries)?;
    for index in 0..count {
        mark_before(entries, wanted, count - 1 - index)?;
    }
    Ok(())
}

/// The entries and the facts that are wanted where these instances are used.
pub(crate) fn wanted_for(
    table: &Table,
    entries: &NodeEntries,
    facts: usize,
    used: &IndexSet<usize>,
) -> Result<Wanted, NoMemory> {
    let alloc = table.alloc();
    let mut made = Wanted {
        entries: vec![in alloc; false; entries.items.len()]?,
        facts: vec![in alloc; false; facts]?,
    };
    mark_all(table, entries, used, &mut made)?;
    Ok(made)
}
