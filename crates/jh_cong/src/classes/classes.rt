ghost use Rattle.std.specs.Prelude.{◌≡◌, ◌<◌, ◌≤◌, ◌↔◌, ◌++◌, [], ◌∷◌, ℕ, Err, IfNone, IfOk, IfSome, IsTrue, List, OnErr, OnOk, Some, false, length, slice_get, take, true};
ghost use Rattle.jh_closure.specs.congruence_closure.Nodes.{Has};
ghost use Rattle.jh_closure.specs.declared.congruence_closure.equation.Equation.{Equation};
ghost use Rattle.jh_arena.specs.table.Nodes.{nodes};
ghost use Rattle.jh_cong.specs.classes.Saying.{AreSayable, CanBeSaid, Entails, IsUnmet, picked};
ghost use Rattle.jh_cong.specs.declared.classes.literal.CongError.TheVariants.{Conflict};

use crate::classes::following::following;
use crate::classes::sorts::can_be_said;
use crate::classes::state::State;
use crate::classes::telling::{add, back, begin};
use crate::classes::{CongError, Said};
use jh_arena::table::Table;
use jh_closure::congruence_closure::Equation;
use jh_name::NoMemory;
use std::alloc::Global;
use std::marker::Model;

/// A table, and the literals over its nodes that were asserted so far, in their order. Some structure meets them.
#[derive(Drop)]
pub struct Classes {
    state: State,
}

impl Model for Classes {
    ghost use Rattle.jh_cong.specs.classes.Saying.{Asserted};
    ghost use Rattle.jh_cong.specs.classes.States.{IsState};

    ghost Value = { Asserted };

    ghost view = { λ c. record { table = c.state.table; said = c.state.said.items } };

    ghost invariant = { λ c. IsState c.state };
}

impl Classes {
    /// Classes of a table's nodes, of which nothing is asserted.
    pub fn new(alloc: Global, table: Table) -> Result<Classes, NoMemory>
        ensures { IfOk result (λ made. made ≡ record { table = table; said = [] }) }
    {
        Ok(Classes {
            state: begin(alloc, table)?,
        })
    }

    /// The table.
    pub fn table(&self) -> &Table
        ensures { result.now ≡ self.now.table }
    {
        &self.state.table
    }

    /// Whether two numbers are nodes of one sort, which is not that of fields, so that their equation can be asserted.
    pub fn can_be_said(&self, left: usize, right: usize) -> bool
        ensures { IsTrue result ↔ CanBeSaid (nodes self.now.table) left right }
    {
        can_be_said(&self.state.table, left, right)
    }

    /// How many literals are asserted.
    pub fn len(&self) -> usize
        ensures { result ≡ length self.now.said }
    {
        self.state.said.as_slice().len()
    }

    /// How many of the first literals are enough: from those behind them nothing more follows.
    pub fn enough(&self) -> usize
        ensures inside { result ≤ length self.now.said }
        ensures enough { (a b : ℕ) → CanBeSaid (nodes self.now.table) a b → Entails (nodes self.now.table) self.now.said a b → Entails (nodes self.now.table) (take result self.now.said) a b }
    {
        self.state.enough
    }

    /// Asserts literals. Conflict comes exactly where no structure meets them with what was asserted before, and lists the
    /// numbers of some that no structure meets, where the new ones are numbered behind the asserted ones. After a refusal
    /// nothing has changed.
    pub fn assert(&mut self, alloc: Global, said: &[Said]) -> Result<(), CongError>
        requires { AreSayable (nodes self.old.table) said.now }
        ensures ok { OnOk result (self.new ≡ record { table = self.old.table; said = self.old.said ++ said.now }) }
        ensures met { OnOk result (IsUnmet (nodes self.new.table) self.new.said → ⊥) }
        ensures err { OnErr result (self.new ≡ self.old) }
        ensures conflict { (listed : List ℕ) → result ≡ Err (Conflict listed) → IsUnmet (nodes self.old.table) (picked (self.old.said ++ said.now) listed) }
        ensures numbers { (listed : List ℕ) → result ≡ Err (Conflict listed) → (i : ℕ) → Has listed i → i < length (self.old.said ++ said.now) }
    {
        add(alloc, &mut self.state, said)
    }

    /// Asserts that two nodes are equal, in the same way.
    pub fn assert_eq(&mut self, alloc: Global, left: usize, right: usize) -> Result<(), CongError>
        requires { CanBeSaid (nodes self.old.table) left right }
        ensures ok { OnOk result (self.new ≡ record { table = self.old.table; said = self.old.said ++ record { left = left; right = right; holds = true } ∷ [] }) }
        ensures met { OnOk result (IsUnmet (nodes self.new.table) self.new.said → ⊥) }
        ensures err { OnErr result (self.new ≡ self.old) }
        ensures conflict { (listed : List ℕ) → result ≡ Err (Conflict listed) → IsUnmet (nodes self.old.table) (picked (self.old.said ++ record { left = left; right = right; holds = true } ∷ []) listed) }
        ensures numbers { (listed : List ℕ) → result ≡ Err (Conflict listed) → (i : ℕ) → Has listed i → i ≤ length self.old.said }
    {
        self.assert(
            alloc,
            &[Said {
                left,
                right,
                holds: true,
            }],
        )
    }

    /// Asserts that two nodes differ, in the same way.
    pub fn assert_ne(&mut self, alloc: Global, left: usize, right: usize) -> Result<(), CongError>
        requires { CanBeSaid (nodes self.old.table) left right }
        ensures ok { OnOk result (self.new ≡ record { table = self.old.table; said = self.old.said ++ record { left = left; right = right; holds = false } ∷ [] }) }
        ensures met { OnOk result (IsUnmet (nodes self.new.table) self.new.said → ⊥) }
        ensures err { OnErr result (self.new ≡ self.old) }
        ensures conflict { (listed : List ℕ) → result ≡ Err (Conflict listed) → IsUnmet (nodes self.old.table) (picked (self.old.said ++ record { left = left; right = right; holds = false } ∷ []) listed) }
        ensures numbers { (listed : List ℕ) → result ≡ Err (Conflict listed) → (i : ℕ) → Has listed i → i ≤ length self.old.said }
    {
        self.assert(
            alloc,
            &[Said {
                left,
                right,
                holds: false,
            }],
        )
    }

    /// Takes all literals back but the first ones.
    pub fn undo(&mut self, count: usize)
        requires { count ≤ length self.old.said }
        ensures { self.new ≡ record { table = self.old.table; said = take count self.old.said } }
    {
        back(&mut self.state, count);
    }

    /// Whether it follows from the asserted literals that two nodes are equal. It takes no memory.
    pub fn same(&self, left: usize, right: usize) -> bool
        requires { CanBeSaid (nodes self.now.table) left right }
        ensures { IsTrue result ↔ Entails (nodes self.now.table) self.now.said left right }
    {
        self.state.closure.same(left, right)
    }

    /// The numbers of asserted literals from which alone it follows that two nodes are equal. None comes exactly where it
    /// doesn't follow from all of them.
    pub fn explain(
        &self,
        alloc: Global,
        left: usize,
        right: usize,
    ) -> Result<Option<Vec<usize>>, NoMemory>
        requires { CanBeSaid (nodes self.now.table) left right }
        ensures some { IfOk result (λ found. IfSome found (λ listed. Entails (nodes self.now.table) (picked self.now.said listed.items) left right)) }
        ensures numbers { IfOk result (λ found. IfSome found (λ listed. (i : ℕ) → Has listed.items i → i < length self.now.said)) }
        ensures none { IfOk result (λ found. IfNone found (Entails (nodes self.now.table) self.now.said left right → ⊥)) }
    {
        self.state.closure.explain(alloc, left, right)
    }

    /// The numbers of those of some equations that follow from the asserted literals. An atom that is no equation is
    /// true exactly where it is equal to True.
    pub fn following(&self, alloc: Global, asked: &[Equation]) -> Result<Vec<usize>, NoMemory>
        requires { (e : Equation) → Has asked.now e → CanBeSaid (nodes self.now.table) e.left e.right }
        ensures all { IfOk result (λ listed. (i : ℕ) (e : Equation) → slice_get asked.now i ≡ Some e → Entails (nodes self.now.table) self.now.said e.left e.right → Has listed.items i) }
        ensures only { IfOk result (λ listed. (i : ℕ) (e : Equation) → Has listed.items i → slice_get asked.now i ≡ Some e → Entails (nodes self.now.table) self.now.said e.left e.right) }
        ensures inside { IfOk result (λ listed. (i : ℕ) → Has listed.items i → i < length asked.now) }
    {
        following(alloc, &self.state.closure, asked)
    }
}
