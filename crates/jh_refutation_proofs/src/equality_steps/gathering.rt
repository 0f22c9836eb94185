use indexmap::IndexSet;
use jh_arena::table::{Shape, Table};
use jh_name::NoMemory;
use jh_proof_builder::{MOST_NESTED, Stated, arguments, is_equation, shape_of};

/// The read that a term is: of an object or of a number, from a field, at an object.
#[derive(Clone, Copy)]
pub(crate) struct Read {
    pub(crate) is_object: bool,
    pub(crate) field: usize,
    pub(crate) at: usize,
}

/// The read that a term is, where it is one.
pub(crate) fn read_of(table: &Table, term: usize) -> Option<Read> {
    match shape_of(table, term) {
        Shape::ReadObject(field, at) => Some(Read {
            is_object: true,
            field,
            at,
        }),
        Shape::ReadNumber(field, at) => Some(Read {
            is_object: false,
            field,
            at,
        }),
        _ => None,
    }
}

/// The object at which a term is read, where it is a read.
pub(crate) fn inner(table: &Table, term: usize) -> Option<usize> {
    match read_of(table, term) {
        Some(read) => Some(read.at),
        None => None,
    }
}

/// Notes a node, and answers whether it is new.
pub(crate) fn note(nodes: &mut IndexSet<usize>, node: usize) -> Result<bool, NoMemory> {
    Ok(nodes.insert(node)?)
}

/// Adds a term, and answers the one inside it, where there is one.
fn add_one(
    table: &Table,
    terms: &mut IndexSet<usize>,
    term: usize,
) -> Result<Option<usize>, NoMemory> {
    note(terms, term)?;
    Ok(inner(table, term))
}

/// Adds a term and those inside it.
fn add_term(table: &Table, terms: &mut IndexSet<usize>, term: usize) -> Result<(), NoMemory> {
    let mut next = Some(term);
    for _level in 0..MOST_NESTED {
        match next {
            Some(node) => next = add_one(table, terms, node)?,
            None => return Ok(()),
        }
    }
    Err(NoMemory)
}

/// Adds a term, where there is one, and those inside it.
fn add_some(
    table: &Table,
    terms: &mut IndexSet<usize>,
    term: Option<usize>,
) -> Result<(), NoMemory> {
    match term {
        Some(node) => add_term(table, terms, node),
        None => Ok(()),
    }
}

/// Adds the terms of an atom.
fn add_atom(table: &Table, terms: &mut IndexSet<usize>, atom: usize) -> Result<(), NoMemory> {
    let (first, second) = match is_equation(table, atom) {
        Some((left, right)) => (Some(left), Some(right)),
        None => arguments(table, atom),
    };
    add_some(table, terms, first)?;
    add_some(table, terms, second)
}

/// The terms for objects and numbers of literals, each once.
pub(crate) fn terms_of(table: &Table, said: &[Stated]) -> Result<IndexSet<usize>, NoMemory> {
    let mut terms = IndexSet::new(table.alloc());
    for literal in said {
        add_atom(table, &mut terms, literal.formula)?;
    }
    Ok(terms)
}
