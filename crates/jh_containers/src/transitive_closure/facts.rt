ghost use Rattle.std.specs.Prelude.{◌≡◌, ◌<◌, ◌⊎◌, ℕ, [], Some, length, slice_get, OnOk};
ghost use Rattle.jh_containers.specs.transitive_closure.Spreads.{IsIn};

use indexmap::IndexSet;
use jh_name::NoMemory;
use std::alloc::Global;
use std::marker::Model;

/// That something is so of the thing `of`: a method, say, writes the piece of state of number `what`.
#[derive(Clone, Copy, PartialEq, Eq, Hash)]
pub struct Fact {
    pub of: usize,
    pub what: usize,
}

/// Facts, each once, in the order in which they were added.
#[derive(Drop)]
pub struct FactList {
    facts: IndexSet<Fact>,
}

impl Model for FactList {
    ghost use Rattle.std.specs.Prelude.{List};
    ghost use Rattle.jh_containers.specs.declared.transitive_closure.facts.Fact.{Fact};

    ghost Value = { List Fact };

    ghost view = { λ list. list.facts.keys };
}

impl FactList {
    /// No facts. The list takes its memory from this allocator.
    pub fn new(alloc: Global) -> FactList
        ensures { result ≡ [] }
    {
        FactList {
            facts: IndexSet::new(alloc),
        }
    }

    /// The number of facts.
    pub fn len(&self) -> usize
        ensures { result ≡ length self.now }
    {
        self.facts.len()
    }

    /// The fact at a place of the list.
    pub fn at(&self, index: usize) -> Fact
        requires { index < length self.now }
        ensures { slice_get self.now index ≡ Some result }
    {
        self.facts[index]
    }

    /// Adds a fact where it isn't in the list. The others keep their places.
    pub fn add(&mut self, fact: Fact) -> Result<(), NoMemory>
        ensures added { OnOk result (IsIn self.new fact) }
        ensures keeps { (place : ℕ) (f : Fact) → slice_get self.old place ≡ Some f → slice_get self.new place ≡ Some f }
        ensures only { (f : Fact) → IsIn self.new f → (f ≡ fact) ⊎ IsIn self.old f }
    {
        let (_index, _is_new) = self.facts.insert_full(fact)?;
        Ok(())
    }
}
