use crate::equality_steps::edges::{Edge, edge_at};
use crate::equality_steps::graph::Graph;
use jh_name::NoMemory;
use std::alloc::Global;

/// A step of a way between two terms: the edge that is passed, by its place, and whether it is passed from its left to its right.
#[derive(Clone, Copy)]
pub(crate) struct Pass {
    pub(crate) edge: usize,
    pub(crate) forward: bool,
}

/// Terms that were reached: for each place the pass that leads from there one term nearer to the goal.
#[derive(Drop)]
struct Reached {
    passes: Vec<Option<Pass>>,
    waiting: Vec<usize>,
}

/// No terms reached yet but the goal.
fn begun(alloc: Global, count: usize, goal: usize) -> Result<Reached, NoMemory> {
    let mut passes = Vec::new(alloc);
    for _place in 0..count {
        passes.push(None)?;
    }
    Ok(Reached {
        passes,
        waiting: vec![in alloc; goal]?,
    })
}

/// The pass at a place.
fn pass_at(passes: &[Option<Pass>], place: usize) -> Option<Pass> {
    match passes.get(place) {
        Some(pass) => *pass,
        None => None,
    }
}

/// Notes that a term is reached, by a pass that leads from it nearer to the goal.
fn reach(reached: &mut Reached, place: usize, goal: usize, pass: Pass) -> Result<(), NoMemory> {
    if place == goal || pass_at(reached.passes.as_slice(), place).is_some() {
        return Ok(());
    }
    if place < reached.passes.len() {
        reached.passes[place] = Some(pass);
    }
    reached.waiting.push(place)?;
    Ok(())
}

/// Reaches the terms that an edge joins with a term.
fn reach_by(
    reached: &mut Reached,
    edges: &[Edge],
    edge: usize,
    at: usize,
    goal: usize,
) -> Result<(), NoMemory> {
    let found = edge_at(edges, edge);
    if found.left == at {
        reach(
            reached,
            found.right,
            goal,
            Pass {
                edge,
                forward: false,
            },
        )?;
    }
    if found.right == at {
        reach(
            reached,
            found.left,
            goal,
            Pass {
                edge,
                forward: true,
            },
        )?;
    }
    Ok(())
}

/// Reaches all terms that are equal to a goal.
fn reach_all(alloc: Global, graph: &Graph, goal: usize) -> Result<Reached, NoMemory> {
    let count = graph.terms.len();
    let mut reached = begun(alloc, count, goal)?;
    for _turn in 0..count {
        match reached.waiting.pop() {
            None => return Ok(reached),
            Some(at) => {
                for edge in 0..graph.edges.len() {
                    reach_by(&mut reached, graph.edges.as_slice(), edge, at, goal)?;
                }
            }
        }
    }
    Ok(reached)
}

/// The place behind a pass.
pub(crate) fn behind(edges: &[Edge], pass: Pass) -> usize {
    let edge = edge_at(edges, pass.edge);
    if pass.forward { edge.right } else { edge.left }
}

/// The way from one term to another that is equal, by their places.
pub(crate) fn way(
    alloc: Global,
    graph: &Graph,
    from: usize,
    to: usize,
) -> Result<Vec<Pass>, NoMemory> {
    let reached = reach_all(alloc, graph, to)?;
    let mut made = Vec::new(alloc);
    let mut at = from;
    for _turn in 0..graph.terms.len() {
        match pass_at(reached.passes.as_slice(), at) {
            None => break,
            Some(pass) => {
                made.push(pass)?;
                at = behind(graph.edges.as_slice(), pass);
            }
        }
    }
    if at == to { Ok(made) } else { Err(NoMemory) }
}
