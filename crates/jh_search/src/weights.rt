ghost use Rattle.std.specs.Prelude.{◌≡◌, slice_get};

use crate::deciding::place_at;
use jh_name::NoMemory;
use jh_propagation::propagation::{Branch, Problem};
use std::alloc::Global;

/// How often each atom stood in an explanation, by the number of its node; the index of each atom in the list of all; the indexes of the
/// atoms that stood in one, in the order in which they first did; and for each decision of the path the index, when it was taken, of the
/// first of all atoms that was left to be chosen. Nothing is proved of it: it says only what is tried first.
#[derive(Drop)]
pub struct Weights {
    counts: Vec<u64>,
    indexes: Vec<usize>,
    heavy: Vec<usize>,
    starts: Vec<usize>,
}

/// So many counts of nothing.
fn no_counts(alloc: Global, count: usize) -> Result<Vec<u64>, NoMemory> {
    Ok(vec![in alloc; 0; count]?)
}

/// For each of so many nodes its index in a list, where it stands there.
fn indexes_of(alloc: Global, atoms: &[usize], count: usize) -> Result<Vec<usize>, NoMemory> {
    let mut indexes = vec![in alloc; 0; count]?;
    for index in 0..atoms.len() {
        if let Some(item) = indexes.get_mut(place_at(atoms, index)) {
            *item = index;
        }
    }
    Ok(indexes)
}

impl Weights {
    /// Nothing was explained yet.
    pub(crate) fn none(alloc: Global, problem: &Problem) -> Result<Weights, NoMemory> {
        let count = problem.table.len();
        let counts = no_counts(alloc, count)?;
        Ok(Weights {
            counts,
            indexes: indexes_of(alloc, problem.ground.atoms(), count)?,
            heavy: Vec::new(alloc),
            starts: Vec::new(alloc),
        })
    }

    /// How often an atom stood in an explanation.
    fn count(&self, atom: usize) -> u64 {
        match self.counts.get(atom) {
            Some(count) => *count,
            None => 0,
        }
    }

    /// The index of an atom.
    fn index(&self, atom: usize) -> usize {
        match self.indexes.get(atom) {
            Some(index) => *index,
            None => 0,
        }
    }

    /// The indexes of the atoms that stood in an explanation.
    pub(crate) fn heavy(&self) -> &[usize] {
        self.heavy.as_slice()
    }

    /// Whether an atom is heavier than another one: it stood in more explanations, or in as many and is the earlier one.
    pub(crate) fn is_heavier(&self, atom: usize, other: usize) -> bool {
        let count = self.count(atom);
        let most = self.count(other);
        count > most || (count == most && self.index(atom) < self.index(other))
    }

    /// An atom stands in one more explanation.
    pub(crate) fn bump(&mut self, atom: usize) -> Result<(), NoMemory> {
        let count = self.count(atom);
        if count == 0 {
            let index = self.index(atom);
            self.heavy.push(index)?;
        }
        if let Some(item) = self.counts.get_mut(atom) {
            *item = count.saturating_add(1);
        }
        Ok(())
    }

    /// The index of the first atom that may be left to be chosen after the decisions of a branch: what was noted at an earlier decision of
    /// its path. What was noted at others is forgotten.
    pub(crate) fn start(&mut self, branch: &Branch) -> usize {
        self.starts.truncate(branch.decisions.as_slice().len());
        match self.starts.last() {
            Some(start) => *start,
            None => 0,
        }
    }

    /// Notes the index of the first atom that is left to be chosen, for the next decision.
    pub(crate) fn note(&mut self, start: usize) -> Result<(), NoMemory> {
        self.starts.push(start)?;
        Ok(())
    }
}
