use crate::equality_steps::deducing::{Deduced, make_equal};
use crate::equality_steps::gathering::note;
use crate::equality_steps::graph::{Graph, graph_of, term_at};
use indexmap::IndexSet;
use jh_arena::table::{Shape, Table};
use jh_name::NoMemory;
use jh_proof_builder::jh_derivation_steps::premises::NodeStep;
use jh_proof_builder::{
    Stated, add_step, arguments, equation, is_equation, joined, negation, same_head, shape_of,
    with_argument,
};

/// Why literals clash: terms that differ are equal; two numbers that differ are; or an atom that holds says the same as one that
/// doesn't.
#[derive(Clone, Copy)]
enum Clash {
    Differing(usize, usize),
    Constants(usize, usize),
    Atoms(usize, usize),
}

/// Two terms that a literal says are different, where they are equal.
fn differing(table: &Table, graph: &Graph, literal: Stated) -> Option<Clash> {
    if literal.holds {
        return None;
    }
    let (left, right) = is_equation(table, literal.formula)?;
    if graph.same(left, right) {
        Some(Clash::Differing(left, right))
    } else {
        None
    }
}

/// Whether two objects are equal, or there are none.
fn same_argument(graph: &Graph, left: Option<usize>, right: Option<usize>) -> bool {
    match (left, right) {
        (Some(a), Some(b)) => graph.same(a, b),
        (None, None) => true,
        _ => false,
    }
}

/// Whether two atoms say the same.
fn say_the_same(table: &Table, graph: &Graph, left: usize, right: usize) -> bool {
    let (first, second) = arguments(table, left);
    let (other, another) = arguments(table, right);
    same_head(table, left, right)
        && same_argument(graph, first, other)
        && same_argument(graph, second, another)
}

/// An atom that doesn't hold and says the same as one that does.
fn denied_atom(table: &Table, graph: &Graph, said: &[Stated], literal: Stated) -> Option<Clash> {
    if !literal.holds {
        return None;
    }
    for other in said {
        if !other.holds && say_the_same(table, graph, literal.formula, other.formula) {
            return Some(Clash::Atoms(literal.formula, other.formula));
        }
    }
    None
}

/// Why a literal clashes with others, where it does.
fn clash_with(table: &Table, graph: &Graph, said: &[Stated], literal: Stated) -> Option<Clash> {
    match differing(table, graph, literal) {
        Some(clash) => Some(clash),
        None => denied_atom(table, graph, said, literal),
    }
}

/// Whether a term is a constant.
fn is_constant(table: &Table, term: usize) -> bool {
    match shape_of(table, term) {
        Shape::Const(_) => true,
        _ => false,
    }
}

/// A constant that is equal to another one, which is given.
fn other_constant(table: &Table, graph: &Graph, term: usize) -> Option<Clash> {
    if !is_constant(table, term) {
        return None;
    }
    for place in 0..graph.terms.len() {
        let other = term_at(&graph.terms, place);
        if other != term && is_constant(table, other) && graph.same(term, other) {
            return Some(Clash::Constants(term, other));
        }
    }
    None
}

/// Why literals clash, where they do.
fn clash_of(table: &Table, graph: &Graph, said: &[Stated]) -> Option<Clash> {
    for literal in said {
        if let Some(clash) = clash_with(table, graph, said, *literal) {
            return Some(clash);
        }
    }
    for place in 0..graph.terms.len() {
        if let Some(clash) = other_constant(table, graph, term_at(&graph.terms, place)) {
            return Some(clash);
        }
    }
    None
}

/// Closes a branch in which two terms differ that are equal.
fn close_differing(
    table: &mut Table,
    graph: &Graph,
    deduced: &mut Deduced,
    left: usize,
    right: usize,
) -> Result<(), NoMemory> {
    make_equal(table, graph, deduced, left, right)?;
    let fact = equation(table, left, right)?;
    if left == right {
        let denied = negation(table, fact)?;
        add_step(&mut deduced.steps, NodeStep::Reflexive(denied))
    } else {
        add_step(&mut deduced.steps, NodeStep::Pair(fact))
    }
}

/// Closes a branch in which two constants are equal.
fn close_constants(
    table: &mut Table,
    graph: &Graph,
    deduced: &mut Deduced,
    left: usize,
    right: usize,
) -> Result<(), NoMemory> {
    make_equal(table, graph, deduced, left, right)?;
    let fact = equation(table, left, right)?;
    add_step(&mut deduced.steps, NodeStep::Reflexive(fact))
}

/// Exchanges the first or the second object of an atom that is a fact for an equal one, and answers the atom that is a fact then.
fn exchange(
    table: &mut Table,
    graph: &Graph,
    deduced: &mut Deduced,
    atom: usize,
    first: bool,
    old: Option<usize>,
    new: Option<usize>,
) -> Result<usize, NoMemory> {
    match (old, new) {
        (Some(from), Some(to)) => {
            if from == to {
                return Ok(atom);
            }
            make_equal(table, graph, deduced, from, to)?;
            let made = with_argument(table, atom, first, to)?;
            add_step(
                &mut deduced.steps,
                NodeStep::Replacing(atom, made, from, to),
            )?;
            Ok(made)
        }
        _ => Ok(atom),
    }
}

/// Closes a branch in which an atom holds that says the same as one that doesn't.
fn close_atoms(
    table: &mut Table,
    graph: &Graph,
    deduced: &mut Deduced,
    left: usize,
    right: usize,
) -> Result<(), NoMemory> {
    let (first, second) = arguments(table, left);
    let (other, another) = arguments(table, right);
    let half = exchange(table, graph, deduced, left, true, first, other)?;
    let whole = exchange(table, graph, deduced, half, false, second, another)?;
    add_step(&mut deduced.steps, NodeStep::Pair(whole))
}

/// Closes a branch by a clash.
fn close(
    table: &mut Table,
    graph: &Graph,
    deduced: &mut Deduced,
    clash: Clash,
) -> Result<(), NoMemory> {
    match clash {
        Clash::Differing(left, right) => close_differing(table, graph, deduced, left, right),
        Clash::Constants(left, right) => close_constants(table, graph, deduced, left, right),
        Clash::Atoms(left, right) => close_atoms(table, graph, deduced, left, right),
    }
}

/// No steps, and the equations among literals that hold.
fn begun(table: &Table, said: &[Stated]) -> Result<Deduced, NoMemory> {
    let mut facts = IndexSet::new(table.alloc());
    for literal in said {
        if literal.holds {
            note(&mut facts, literal.formula)?;
        }
    }
    Ok(Deduced {
        steps: Vec::new(table.alloc()),
        facts,
    })
}

/// Writes steps that close a branch in which these literals are facts, where no structure meets them. The answer is want of memory
/// where no clash is found: terms are joined that read one field at equal terms, and two atoms are compared by their objects. The
/// time is in proportion to the third power of the number of terms, so the literals are to be few.
pub fn close_by_equality(
    table: &mut Table,
    steps: &mut Vec<NodeStep>,
    said: &[Stated],
) -> Result<(), NoMemory> {
    let graph = graph_of(table, said)?;
    let mut deduced = begun(table, said)?;
    match clash_of(table, &graph, said) {
        Some(clash) => close(table, &graph, &mut deduced, clash)?,
        None => return Err(NoMemory),
    }
    joined(steps, deduced.steps.as_slice())
}
