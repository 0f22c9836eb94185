use crate::equality_steps::edges::Edge;
use crate::equality_steps::gathering::{read_of, terms_of};
use indexmap::IndexSet;
use jh_arena::table::Table;
use jh_name::NoMemory;
use jh_proof_builder::{Stated, is_equation};

/// Terms with the number of the class of each, and edges between equal ones: a forest, whose trees are the classes.
#[derive(Drop)]
pub(crate) struct Graph {
    pub(crate) terms: IndexSet<usize>,
    pub(crate) classes: Vec<usize>,
    pub(crate) edges: Vec<Edge>,
}

/// The term at a place.
pub(crate) fn term_at(terms: &IndexSet<usize>, place: usize) -> usize {
    match terms.get_index(place) {
        Some(term) => *term,
        None => 0,
    }
}

/// The number at a place, or the place itself.
fn number_at(numbers: &[usize], place: usize) -> usize {
    match numbers.get(place) {
        Some(number) => *number,
        None => place,
    }
}

/// Puts the term at a place into another class, where it is in this one.
fn recall_one(classes: &mut Vec<usize>, place: usize, old: usize, new: usize) {
    if place < classes.len() && classes[place] == old {
        classes[place] = new;
    }
}

/// Puts all terms of one class into another.
fn recall(classes: &mut Vec<usize>, old: usize, new: usize) {
    for place in 0..classes.len() {
        recall_one(classes, place, old, new);
    }
}

/// So many classes, each of one term.
fn apart(table: &Table, count: usize) -> Result<Vec<usize>, NoMemory> {
    let mut classes = Vec::new(table.alloc());
    for place in 0..count {
        classes.push(place)?;
    }
    Ok(classes)
}

impl Graph {
    /// The class of the term at a place.
    fn class(&self, place: usize) -> usize {
        number_at(self.classes.as_slice(), place)
    }

    /// The place of a term.
    pub(crate) fn place(&self, term: usize) -> Option<usize> {
        self.terms.get_index_of(&term)
    }

    /// Whether two terms are equal.
    pub(crate) fn same(&self, left: usize, right: usize) -> bool {
        match (self.place(left), self.place(right)) {
            (Some(a), Some(b)) => self.class(a) == self.class(b),
            _ => false,
        }
    }

    /// Joins the classes of the terms at two places by an edge, where they differ. The answer is whether they did.
    fn join(&mut self, left: usize, right: usize, is_given: bool) -> Result<bool, NoMemory> {
        let old = self.class(right);
        let new = self.class(left);
        if old == new {
            return Ok(false);
        }
        self.edges.push(Edge {
            left,
            right,
            is_given,
        })?;
        recall(&mut self.classes, old, new);
        Ok(true)
    }

    /// Joins the classes of the sides of an equation.
    fn join_sides(&mut self, left: usize, right: usize) -> Result<(), NoMemory> {
        match (self.place(left), self.place(right)) {
            (Some(a), Some(b)) => {
                self.join(a, b, true)?;
                Ok(())
            }
            _ => Err(NoMemory),
        }
    }
}

/// Joins what a literal says is equal.
fn join_said(table: &Table, graph: &mut Graph, literal: Stated) -> Result<(), NoMemory> {
    if !literal.holds {
        return Ok(());
    }
    match is_equation(table, literal.formula) {
        Some((left, right)) => graph.join_sides(left, right),
        None => Ok(()),
    }
}

/// Whether two terms read one field at equal terms.
fn are_alike(table: &Table, graph: &Graph, left: usize, right: usize) -> bool {
    match (read_of(table, left), read_of(table, right)) {
        (Some(a), Some(b)) => {
            a.field == b.field && a.is_object == b.is_object && graph.same(a.at, b.at)
        }
        _ => false,
    }
}

/// Joins the term at a place with those before it that read one field at equal terms. The answer is whether some classes were joined.
fn join_reads(table: &Table, graph: &mut Graph, place: usize) -> Result<bool, NoMemory> {
    let mut joins = false;
    let term = term_at(&graph.terms, place);
    for other in 0..place {
        if are_alike(table, graph, term_at(&graph.terms, other), term) {
            let more = graph.join(other, place, false)?;
            joins = joins || more;
        }
    }
    Ok(joins)
}

/// Joins terms that read one field at equal terms, once for each pair. The answer is whether some classes were joined.
fn join_all(table: &Table, graph: &mut Graph) -> Result<bool, NoMemory> {
    let mut joins = false;
    for place in 0..graph.terms.len() {
        let more = join_reads(table, graph, place)?;
        joins = joins || more;
    }
    Ok(joins)
}

/// Joins all that is equal.
fn saturate(table: &Table, graph: &mut Graph) -> Result<(), NoMemory> {
    for _turn in 0..graph.terms.len() {
        if !join_all(table, graph)? {
            return Ok(());
        }
    }
    Ok(())
}

/// The terms of literals, with the classes of those that are equal by them.
pub(crate) fn graph_of(table: &Table, said: &[Stated]) -> Result<Graph, NoMemory> {
    let terms = terms_of(table, said)?;
    let classes = apart(table, terms.len())?;
    let mut graph = Graph {
        terms,
        classes,
        edges: Vec::new(table.alloc()),
    };
    for literal in said {
        join_said(table, &mut graph, *literal)?;
    }
    saturate(table, &mut graph)?;
    Ok(graph)
}
