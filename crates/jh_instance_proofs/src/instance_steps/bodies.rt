use jh_arena::table::{Shape, Table};
use jh_name::NoMemory;
use jh_proof_builder::{Stated, opened, shape_of};

/// The body of a formula that is a quantifier: of a universal, or else of what is said to be there.
pub(crate) fn body_of(table: &Table, node: usize, each: bool) -> Option<usize> {
    match shape_of(table, node) {
        Shape::All(a) => if each { Some(a) } else { None },
        Shape::Ex(a) => if each { None } else { Some(a) },
        _ => None,
    }
}

/// The same, where there is one.
pub(crate) fn body_under(table: &Table, node: usize, each: bool) -> Result<usize, NoMemory> {
    match body_of(table, node, each) {
        Some(body) => Ok(body),
        None => Err(NoMemory),
    }
}

/// What is said of a body, at a term.
pub(crate) fn put(table: &mut Table, body: Stated, with: usize) -> Result<Stated, NoMemory> {
    Ok(Stated {
        formula: opened(table, body.formula, with)?,
        holds: body.holds,
    })
}
