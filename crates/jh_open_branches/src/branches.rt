#![tactic(auto, unfolding(crate::specs::Placed::numbers, crate::specs::Waits::waits))]

ghost use Rattle.std.specs.Prelude.{◌≡◌, ◌↔◌, ◌++◌, [], Ok, true, false, IsTrue, OnOk};
ghost use Rattle.jh_open_branches.specs.Placed.{ArePlaced, StandAll, noted, numbers};
ghost use Rattle.jh_open_branches.specs.Waits.{Follows, waits};

use crate::facts::FactList;
use jh_derivation_steps::premises::{Adds, Nodes};
use jh_name::NoMemory;
use std::alloc::Global;

/// A branch that waits: how many of the facts are its, and what its step adds to them.
#[derive(Clone, Copy)]
pub struct Waiting {
    pub count: usize,
    pub added: Nodes,
}

/// The branches that are open: the facts of the one that is worked at, and those that wait, of which the last is the
/// next.
#[derive(Drop)]
pub struct Branches {
    pub facts: FactList,
    pub waiting: Vec<Waiting>,
}

impl Branches {
    /// No branch, and no facts.
    pub fn new(alloc: Global) -> Branches
        ensures facts { result.facts.facts.items ≡ [] }
        ensures waiting { result.waiting.items ≡ [] }
        ensures placed { ArePlaced result.facts.facts.items (noted result.facts.places) }
    {
        Branches {
            facts: FactList::new(alloc),
            waiting: Vec::new(alloc),
        }
    }

    /// Adds nodes to the facts.
    pub fn add(&mut self, added: Nodes) -> Result<(), NoMemory>
        requires { ArePlaced self.old.facts.facts.items (noted self.old.facts.places) }
        ensures facts { OnOk result (self.new.facts.facts.items ≡ self.old.facts.facts.items ++ numbers added) }
        ensures placed { OnOk result (ArePlaced self.new.facts.facts.items (noted self.new.facts.places)) }
        ensures waiting { self.new.waiting.items ≡ self.old.waiting.items }
    {
        match added {
            Nodes::Nothing => Ok(()),
            Nodes::One(node) => self.facts.push(node),
            Nodes::Two(first, second) => {
                self.facts.push(first)?;
                self.facts.push(second)
            }
        }
    }

    /// Goes on with the next branch, where one waits.
    pub fn next(&mut self) -> Result<bool, NoMemory>
        requires { ArePlaced self.old.facts.facts.items (noted self.old.facts.places) }
        ensures none { result ≡ Ok false → self.old.waiting.items ≡ [] }
        ensures next { result ≡ Ok true → Follows self.old.facts.facts.items self.old.waiting.items self.new.facts.facts.items self.new.waiting.items }
        ensures placed { result ≡ Ok true → ArePlaced self.new.facts.facts.items (noted self.new.facts.places) }
    {
        match self.waiting.pop() {
            None => Ok(false),
            Some(waiting) => {
                self.facts.cut(waiting.count);
                self.add(waiting.added)?;
                Ok(true)
            }
        }
    }

    /// Whether each of these nodes is a fact.
    pub fn has(&self, needs: Nodes) -> bool
        requires { ArePlaced self.now.facts.facts.items (noted self.now.facts.places) }
        ensures { IsTrue result ↔ StandAll self.now.facts.facts.items (numbers needs) }
    {
        match needs {
            Nodes::Nothing => true,
            Nodes::One(node) => self.facts.has(node),
            Nodes::Two(first, second) => self.facts.has(first) && self.facts.has(second),
        }
    }

    /// Opens the branches that a step leads to, so that the left one is the next.
    pub fn spread(&mut self, adds: Adds) -> Result<(), NoMemory>
        requires { ArePlaced self.old.facts.facts.items (noted self.old.facts.places) }
        ensures facts { self.new.facts.facts.items ≡ self.old.facts.facts.items }
        ensures placed { ArePlaced self.new.facts.facts.items (noted self.new.facts.places) }
        ensures waiting { OnOk result (self.new.waiting.items ≡ self.old.waiting.items ++ waits self.old.facts.facts.items adds) }
    {
        match adds {
            Adds::Closes => Ok(()),
            Adds::Goes(added) => self.wait(added),
            Adds::Splits(left, right) => {
                self.wait(right)?;
                self.wait(left)
            }
        }
    }

    fn wait(&mut self, added: Nodes) -> Result<(), NoMemory>
        requires { ArePlaced self.old.facts.facts.items (noted self.old.facts.places) }
        ensures facts { self.new.facts.facts.items ≡ self.old.facts.facts.items }
        ensures placed { ArePlaced self.new.facts.facts.items (noted self.new.facts.places) }
        ensures waiting { OnOk result (self.new.waiting.items ≡ self.old.waiting.items ++ waits self.old.facts.facts.items (Adds.Goes added)) }
    {
        let count = self.facts.facts().len();
        self.waiting.push(Waiting { count, added })?;
        Ok(())
    }
}
