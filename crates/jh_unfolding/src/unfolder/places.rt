ghost use Rattle.std.specs.Prelude.{◌≡◌, ◌==◌, ℕ, Some, None, IfOk, OnOk, if◌then◌else◌};
ghost use Rattle.jh_unfolding.specs.unfolder.Noted.{node_at, place_of, ◌or_else◌};

use indexmap::IndexMap;
use jh_name::NoMemory;
use std::alloc::Global;
use std::marker::Model;

/// The nodes of formulas, by the numbers of the formulas. No number is greater than those below the bound.
#[derive(Drop)]
pub struct Places {
    nodes: IndexMap<u32, usize>,
    bound: usize,
}

impl Model for Places {
    ghost use Rattle.std.specs.Prelude.{◌≡◌, ◌≤◌, ◌^◌, ℕ, List, None};
    ghost use Rattle.jh_unfolding.specs.unfolder.Noted.{place_of};

    ghost Value = { List (ℕ × ℕ) };

    ghost view = { λ places. places.nodes.entries };

    ghost invariant = { λ places. (places.bound ≤ 2 ^ 32) × ((n : ℕ) → places.bound ≤ n → place_of places.nodes.entries n ≡ None) };
}

impl Places {
    /// No nodes.
    pub fn new(alloc: Global) -> Places
        ensures { (n : ℕ) → place_of result n ≡ None }
    {
        Places {
            nodes: IndexMap::new(alloc),
            bound: 0,
        }
    }

    /// The node of the formula of a number, where there is one.
    pub fn place(&self, number: u32) -> Option<usize>
        ensures { result ≡ place_of self.now number }
    {
        self.nodes.get(&number).copied()
    }

    /// Lets a number have a node.
    fn put(&mut self, number: u32, node: usize) -> Result<(), NoMemory>
        ensures { OnOk result ((n : ℕ) → place_of self.new n ≡ (if number == n then Some node else place_of self.old n)) }
    {
        self.bound = self.bound.max(number as usize + 1);
        self.nodes.insert(number, node)?;
        Ok(())
    }

    /// Notes the node of a number, unless it has one.
    pub fn note(&mut self, number: u32, node: usize) -> Result<(), NoMemory>
        ensures { OnOk result ((n : ℕ) → place_of self.new n ≡ (place_of self.old n or_else (if number == n then Some node else None))) }
    {
        if self.place(number).is_some() {
            return Ok(());
        }
        self.put(number, node)
    }

    /// The node of each formula at the place of its number.
    pub fn list(&self, alloc: Global) -> Result<Vec<Option<usize>>, NoMemory>
        ensures { IfOk result (λ made. (n : ℕ) → node_at made.items n ≡ place_of self.now n) }
    {
        let mut made = Vec::new(alloc);
        for number in 0..self.bound {
            made.push(self.place(number as u32))?;
        }
        Ok(made)
    }
}
