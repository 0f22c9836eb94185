ghost use Rattle.std.specs.Prelude.{◌≡◌, true, ℕ, ◌⊎◌, OnOk};
ghost use Rattle.jh_substitution.specs.rewriting.Seen.{has};

use indexmap::IndexSet;
use jh_name::NoMemory;
use std::alloc::Global;

/// The nodes that were seen so far.
#[derive(Drop)]
pub struct Seen {
    pub(crate) nodes: IndexSet<usize>,
}

impl Seen {
    /// No nodes.
    pub fn new(alloc: Global) -> Seen
        ensures { (n : ℕ) → has result.nodes n ≡ true → ⊥ }
    {
        Seen {
            nodes: IndexSet::new(alloc),
        }
    }

    /// Whether the node was seen.
    pub fn has(&self, node: usize) -> bool
        ensures { result ≡ has self.now.nodes node }
    {
        self.nodes.contains(&node)
    }

    /// Marks the node as seen.
    pub fn add(&mut self, node: usize) -> Result<(), NoMemory>
        ensures added { OnOk result (has self.new.nodes node ≡ true) }
        ensures others { (n : ℕ) → has self.new.nodes n ≡ true → (n ≡ node) ⊎ (has self.old.nodes n ≡ true) }
    {
        self.nodes.insert(node)?;
        Ok(())
    }
}
