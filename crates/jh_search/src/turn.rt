use crate::weights::Weights;
use jh_propagation::propagation::Branch;
use jh_propagation::trail::Decided;

/// A branch that is closed: its decisions, and literals that explain why.
#[derive(Drop)]
pub struct ClosedBranch {
    pub decisions: Vec<Decided>,
    pub explanation: Vec<Decided>,
}

/// A decision of the path, with its place in the trail: whether its opposite was searched before it, and then the decisions that
/// closed that side.
#[derive(Drop)]
pub struct Turn {
    pub literal: Decided,
    pub at: usize,
    pub is_second: bool,
    pub needs: Vec<Decided>,
}

/// A search as it goes on: the branch of its path, the branches that are closed, and how often each atom stood in an explanation.
#[derive(Drop)]
pub struct Searching {
    pub branch: Branch,
    pub path: Vec<Turn>,
    pub closed: Vec<ClosedBranch>,
    pub weights: Weights,
}

/// What a closed branch leads back to: nothing is left; a decision is turned round; or the budget is spent.
#[derive(Clone, Copy, PartialEq, Eq)]
pub enum Retreat {
    Finished,
    Turned,
    Spent,
}

/// What a search comes to: there is no ground model; the trail of its branch is one; or so many branches are closed, and it isn't
/// finished.
#[derive(Clone, Copy, PartialEq, Eq)]
pub enum Found {
    NoModel,
    Model,
    Spent,
}
