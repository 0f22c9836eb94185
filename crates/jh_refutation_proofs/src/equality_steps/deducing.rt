use crate::equality_steps::edges::{Edge, edge_at};
use crate::equality_steps::gathering::{Read, inner, note, read_of};
use crate::equality_steps::graph::{Graph, term_at};
use crate::equality_steps::paths::{Pass, behind, way};
use indexmap::IndexSet;
use jh_arena::table::Table;
use jh_name::{Kind, NoMemory};
use jh_proof_builder::jh_derivation_steps::premises::NodeStep;
use jh_proof_builder::{add_step, equation};

/// Steps that add equations, and the equations that are facts by now.
#[derive(Drop)]
pub(crate) struct Deduced {
    pub(crate) steps: Vec<NodeStep>,
    pub(crate) facts: IndexSet<usize>,
}

/// Writes a step that adds an equation, where it isn't a fact yet.
fn deduce(deduced: &mut Deduced, fact: usize, step: NodeStep) -> Result<(), NoMemory> {
    if note(&mut deduced.facts, fact)? {
        add_step(&mut deduced.steps, step)
    } else {
        Ok(())
    }
}

/// The terms of an edge.
fn ends(graph: &Graph, edge: Edge) -> (usize, usize) {
    (
        term_at(&graph.terms, edge.left),
        term_at(&graph.terms, edge.right),
    )
}

/// Makes the equation of the two terms of a pass a fact, in this order, where it is one in the order of the edge.
fn turn(
    table: &mut Table,
    graph: &Graph,
    deduced: &mut Deduced,
    pass: Pass,
) -> Result<(), NoMemory> {
    let (left, right) = ends(graph, edge_at(graph.edges.as_slice(), pass.edge));
    if pass.forward {
        return Ok(());
    }
    let turned = equation(table, right, left)?;
    deduce(deduced, turned, NodeStep::Symmetric(left, right))
}

/// Makes the equation of the first term of a way and the one behind a pass a fact, where it is one with the term before the pass.
fn go_on(
    table: &mut Table,
    graph: &Graph,
    deduced: &mut Deduced,
    first: usize,
    before: usize,
    after: usize,
) -> Result<(), NoMemory> {
    let from = term_at(&graph.terms, first);
    let over = term_at(&graph.terms, before);
    let to = term_at(&graph.terms, after);
    if first == before || first == after {
        return Ok(());
    }
    let joined = equation(table, from, to)?;
    deduce(deduced, joined, NodeStep::Transitive(from, over, to))
}

/// Makes the equation of the terms at two places a fact, where the edges between them are facts.
fn follow(
    table: &mut Table,
    graph: &Graph,
    deduced: &mut Deduced,
    from: usize,
    to: usize,
) -> Result<(), NoMemory> {
    let passes = way(table.alloc(), graph, from, to)?;
    let mut at = from;
    for pass in &passes {
        turn(table, graph, deduced, *pass)?;
        let next = behind(graph.edges.as_slice(), *pass);
        go_on(table, graph, deduced, from, at, next)?;
        at = next;
    }
    Ok(())
}

/// The kind of what is read.
fn kind_of(read: Read) -> Kind {
    if read.is_object { Kind::Obj } else { Kind::Int }
}

/// The places of the terms at which both terms of an edge are read.
fn inner_places(table: &Table, graph: &Graph, edge: Edge) -> Option<(usize, usize)> {
    let (left, right) = ends(graph, edge);
    let first = graph.place(inner(table, left)?)?;
    let second = graph.place(inner(table, right)?)?;
    Some((first, second))
}

/// Makes the equation of an edge of reads a fact.
fn read(
    table: &mut Table,
    graph: &Graph,
    deduced: &mut Deduced,
    edge: Edge,
) -> Result<(), NoMemory> {
    let (left, right) = ends(graph, edge);
    match (inner_places(table, graph, edge), read_of(table, left)) {
        (Some((first, second)), Some(made)) => {
            follow(table, graph, deduced, first, second)?;
            let fact = equation(table, left, right)?;
            let (from, to) = (term_at(&graph.terms, first), term_at(&graph.terms, second));
            deduce(
                deduced,
                fact,
                NodeStep::Reading(kind_of(made), made.field, from, to),
            )
        }
        _ => Err(NoMemory),
    }
}

/// Marks the edges of the way between the terms at two places.
fn mark(
    table: &Table,
    graph: &Graph,
    marks: &mut Vec<bool>,
    from: usize,
    to: usize,
) -> Result<(), NoMemory> {
    let passes = way(table.alloc(), graph, from, to)?;
    for pass in &passes {
        if pass.edge < marks.len() {
            marks[pass.edge] = true;
        }
    }
    Ok(())
}

/// Marks the edges by which the edge at a place is one, where it is marked.
fn mark_before(
    table: &Table,
    graph: &Graph,
    marks: &mut Vec<bool>,
    place: usize,
) -> Result<(), NoMemory> {
    let edge = edge_at(graph.edges.as_slice(), place);
    if !is_marked(marks.as_slice(), place) || edge.is_given {
        return Ok(());
    }
    match inner_places(table, graph, edge) {
        Some((first, second)) => mark(table, graph, marks, first, second),
        None => Err(NoMemory),
    }
}

/// Whether a place is marked.
fn is_marked(marks: &[bool], place: usize) -> bool {
    match marks.get(place) {
        Some(mark) => *mark,
        None => false,
    }
}

/// The edges that are wanted for the equation of the terms at two places.
fn wanted(table: &Table, graph: &Graph, from: usize, to: usize) -> Result<Vec<bool>, NoMemory> {
    let count = graph.edges.len();
    let mut marks = vec![in table.alloc(); false; count]?;
    mark(table, graph, &mut marks, from, to)?;
    for index in 0..count {
        mark_before(table, graph, &mut marks, count - 1 - index)?;
    }
    Ok(marks)
}

/// Makes the edge at a place a fact, where it is marked.
fn deduce_edge(
    table: &mut Table,
    graph: &Graph,
    deduced: &mut Deduced,
    marks: &[bool],
    place: usize,
) -> Result<(), NoMemory> {
    let edge = edge_at(graph.edges.as_slice(), place);
    if is_marked(marks, place) && !edge.is_given {
        read(table, graph, deduced, edge)
    } else {
        Ok(())
    }
}

/// Makes the equation of two terms that are equal a fact. Where they are one, nothing is written.
pub(crate) fn make_equal(
    table: &mut Table,
    graph: &Graph,
    deduced: &mut Deduced,
    left: usize,
    right: usize,
) -> Result<(), NoMemory> {
    let (from, to) = match (graph.place(left), graph.place(right)) {
        (Some(from), Some(to)) => (from, to),
        _ => return Err(NoMemory),
    };
    let marks = wanted(table, graph, from, to)?;
    for place in 0..graph.edges.len() {
        deduce_edge(table, graph, deduced, marks.as_slice(), place)?;
    }
    follow(table, graph, deduced, from, to)
}
