ghost use Rattle.std.specs.Prelude.{◌≡◌, ◌<◌, ◌≤◌, ◌↔◌, ◌++◌, [], ◌∷◌, ℕ, IfNone, IfOk, IfSome, IsTrue, OnErr, OnOk, length, take};
ghost use Rattle.jh_closure.specs.congruence_closure.Nodes.{Follows, FollowsFrom, Has};
ghost use Rattle.jh_closure.specs.congruence_closure.Closing.{PartsInside};

use crate::congruence_closure::beginning::begin;
use crate::congruence_closure::explaining::explain;
use crate::congruence_closure::levels::{State, add, back};
use crate::congruence_closure::{Equation, Node};
use jh_name::NoMemory;
use std::alloc::Global;
use std::marker::Model;

/// Nodes, and the equations between them that were asserted so far, in their order.
#[derive(Drop)]
pub struct Closure {
    state: State,
}

impl Model for Closure {
    ghost use Rattle.jh_closure.specs.congruence_closure.Levels.{Asserted, IsState};

    ghost Value = { Asserted };

    ghost view = { λ c. record { nodes = c.state.nodes.items; said = c.state.said.items } };

    ghost invariant = { λ c. IsState c.state };
}

/// Whether two representatives are one.
fn are_one(first: usize, second: usize) -> bool
    ensures { IsTrue result ↔ (first ≡ second) }
{
    first == second
}

impl Closure {
    /// Nodes of which no equation is asserted. The parts of each are among them.
    pub fn new(alloc: Global, nodes: Vec<Node>) -> Result<Closure, NoMemory>
        requires parts { PartsInside (length nodes.items) nodes.items }
        ensures { IfOk result (λ made. made ≡ record { nodes = nodes.items; said = [] }) }
    {
        Ok(Closure {
            state: begin(alloc, nodes)?,
        })
    }

    /// How many equations are asserted.
    pub fn len(&self) -> usize
        ensures { result ≡ length self.now.said }
    {
        self.state.said.as_slice().len()
    }

    /// Asserts that two nodes are equal. Where memory is wanting nothing changes.
    pub fn assert(&mut self, alloc: Global, left: usize, right: usize) -> Result<(), NoMemory>
        requires left { left < length self.old.nodes }
        requires right { right < length self.old.nodes }
        ensures ok { OnOk result (self.new ≡ record { nodes = self.old.nodes; said = self.old.said ++ record { left = left; right = right } ∷ [] }) }
        ensures err { OnErr result (self.new ≡ self.old) }
    {
        add(alloc, &mut self.state, Equation { left, right })
    }

    /// Takes all equations back but the first ones.
    pub fn undo(&mut self, count: usize)
        requires { count ≤ length self.old.said }
        ensures { self.new ≡ record { nodes = self.old.nodes; said = take count self.old.said } }
    {
        back(&mut self.state, count);
    }

    /// Whether it follows from the asserted equations that two nodes are equal.
    pub fn same(&self, left: usize, right: usize) -> bool
        requires left { left < length self.now.nodes }
        requires right { right < length self.now.nodes }
        ensures { IsTrue result ↔ Follows self.now.nodes self.now.said left right }
    {
        are_one(
            self.state.core.forest.find(left),
            self.state.core.forest.find(right),
        )
    }

    /// The numbers of asserted equations from which alone it follows that two nodes are equal. None comes exactly where
    /// it doesn't follow from all of them.
    pub fn explain(
        &self,
        alloc: Global,
        left: usize,
        right: usize,
    ) -> Result<Option<Vec<usize>>, NoMemory>
        requires left { left < length self.now.nodes }
        requires right { right < length self.now.nodes }
        ensures some { IfOk result (λ found. IfSome found (λ listed. FollowsFrom self.now.nodes self.now.said listed.items left right)) }
        ensures numbers { IfOk result (λ found. IfSome found (λ listed. (i : ℕ) → Has listed.items i → i < length self.now.said)) }
        ensures none { IfOk result (λ found. IfNone found (Follows self.now.nodes self.now.said left right → ⊥)) }
    {
        if !self.same(left, right) {
            return Ok(None);
        }
        let listed = explain(
            alloc,
            self.state.nodes.as_slice(),
            &self.state.core.forest,
            left,
            right,
        )?;
        Ok(Some(listed))
    }
}
