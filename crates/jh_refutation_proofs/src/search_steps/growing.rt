use crate::search_steps::literals::{literal_at, needs_of};
use crate::search_steps::tree::{Joint, Tree};
use jh_name::NoMemory;
use jh_search::ClosedBranch;
use jh_search::jh_explanations::{has, is_one};
use jh_search::jh_propagation::trail::{Decided, opposite};
use std::alloc::Global;

/// A decision of the path. Where it is a second side, this joint closes the first one.
#[derive(Clone, Copy)]
struct Turn {
    literal: Decided,
    first: Option<usize>,
}

/// A tree that grows while the branches of a search are gone over in their order: its joints, with the decisions that each of them
/// needs; the decisions of the path; and the joint that closes all, once there is one.
#[derive(Drop)]
pub(crate) struct Growing {
    joints: Vec<Joint>,
    needs: Vec<Vec<Decided>>,
    path: Vec<Turn>,
    root: Option<usize>,
}

/// Adds the literals of a list but one, each that isn't there yet.
fn add_without(
    made: &mut Vec<Decided>,
    needs: &[Decided],
    literal: Decided,
) -> Result<(), NoMemory> {
    for item in needs {
        if !is_one(*item, literal) && !has(made.as_slice(), *item) {
            made.push(*item)?;
        }
    }
    Ok(())
}

/// A cut on the atom of a second side, with the joint of the first side and that of the second.
fn cut_on(literal: Decided, first: usize, second: usize) -> Joint {
    if literal.holds {
        Joint::Cut {
            atom: literal.atom,
            holds: second,
            fails: first,
        }
    } else {
        Joint::Cut {
            atom: literal.atom,
            holds: first,
            fails: second,
        }
    }
}

impl Growing {
    /// Nothing yet.
    pub(crate) fn new(alloc: Global) -> Growing {
        Growing {
            joints: Vec::new(alloc),
            needs: Vec::new(alloc),
            path: Vec::new(alloc),
            root: None,
        }
    }

    /// Adds a joint with what it needs, and answers its place.
    fn add(&mut self, joint: Joint, needs: Vec<Decided>) -> Result<usize, NoMemory> {
        let place = self.joints.len();
        self.needs.push(needs)?;
        self.joints.push(joint)?;
        Ok(place)
    }

    /// What a joint needs.
    fn needed(&self, joint: usize) -> &[Decided] {
        match self.needs.get(joint) {
            Some(needs) => needs.as_slice(),
            None => &[],
        }
    }

    /// Takes the decision of a branch at a place.
    fn take(&mut self, decisions: &[Decided], place: usize) -> Result<(), NoMemory> {
        match literal_at(decisions, place) {
            Some(literal) => {
                self.path.push(Turn {
                    literal,
                    first: None,
                })?;
                Ok(())
            }
            None => Ok(()),
        }
    }

    /// Takes the decisions of a branch that aren't on the path yet.
    fn descend(&mut self, decisions: &[Decided]) -> Result<(), NoMemory> {
        for place in self.path.len()..decisions.len() {
            self.take(decisions, place)?;
        }
        Ok(())
    }

    /// Goes back over a decision that both sides need: they are joined.
    fn join(
        &mut self,
        alloc: Global,
        literal: Decided,
        first: usize,
        second: usize,
    ) -> Result<usize, NoMemory> {
        let mut needs = Vec::new(alloc);
        add_without(&mut needs, self.needed(first), opposite(literal))?;
        add_without(&mut needs, self.needed(second), literal)?;
        self.add(cut_on(literal, first, second), needs)
    }

    /// Goes back over the newest decision. The answer is the joint of what is closed then; none where its second side comes next.
    fn step_back(
        &mut self,
        alloc: Global,
        turn: Turn,
        joint: usize,
    ) -> Result<Option<usize>, NoMemory> {
        if !has(self.needed(joint), turn.literal) {
            return Ok(Some(joint));
        }
        match turn.first {
            Some(first) => {
                let made = self.join(alloc, turn.literal, first, joint)?;
                Ok(Some(made))
            }
            None => {
                self.path.push(Turn {
                    literal: opposite(turn.literal),
                    first: Some(joint),
                })?;
                Ok(None)
            }
        }
    }

    /// Goes back from what is closed, to the next decision whose second side comes.
    fn go_back(&mut self, alloc: Global, closed: usize) -> Result<(), NoMemory> {
        let mut joint = closed;
        for _turn in 0..self.path.len() {
            match self.path.pop() {
                None => break,
                Some(turn) => match self.step_back(alloc, turn, joint)? {
                    Some(made) => joint = made,
                    None => return Ok(()),
                },
            }
        }
        self.root = Some(joint);
        Ok(())
    }

    /// Closes the next branch of the search.
    pub(crate) fn close(
        &mut self,
        alloc: Global,
        place: usize,
        branch: &ClosedBranch,
    ) -> Result<(), NoMemory> {
        self.descend(branch.decisions.as_slice())?;
        let joint = self.add(Joint::Leaf(place), needs_of(alloc, branch)?)?;
        self.go_back(alloc, joint)
    }

    /// The tree, once all is closed.
    pub(crate) fn finished(self) -> Result<Tree, NoMemory> {
        let Growing {
            joints,
            needs: _needs,
            path: _path,
            root,
        } = self;
        match root {
            Some(root) => Ok(Tree { joints, root }),
            None => Err(NoMemory),
        }
    }
}
