use crate::search_steps::growing::Growing;
use jh_name::NoMemory;
use jh_search::ClosedBranch;
use std::alloc::Global;

/// A joint of the tree of a search: a closed branch, by its place, or an atom on which it is cut, with the joint that closes the branch
/// where the atom holds and the one where it doesn't.
#[derive(Clone, Copy)]
pub enum Joint {
    Leaf(usize),
    Cut {
        atom: usize,
        holds: usize,
        fails: usize,
    },
}

/// The tree of a search that is finished: its joints, some of which may be of no use, and the place of its root.
#[derive(Drop)]
pub struct Tree {
    pub joints: Vec<Joint>,
    pub root: usize,
}

/// The branch at a place.
fn branch_at(closed: &[ClosedBranch], place: usize) -> Option<&ClosedBranch> {
    closed.get(place)
}

/// The tree of the closed branches of a search, in the order in which they were closed. It has only cuts that are needed: a joint closes
/// each branch in which what it needs is decided. The answer is want of memory where they aren't all branches of one search.
pub fn tree_of(alloc: Global, closed: &[ClosedBranch]) -> Result<Tree, NoMemory> {
    let mut growing = Growing::new(alloc);
    for place in 0..closed.len() {
        if let Some(branch) = branch_at(closed, place) {
            growing.close(alloc, place, branch)?;
        }
    }
    growing.finished()
}
