ghost use Rattle.std.specs.Prelude.{◌≡◌, ◌⊎◌, ◌++◌, [], ◌∷◌, ℕ, Some, None, OnErr, OnOk, length, take};
ghost use Rattle.jh_closure.specs.congruence_closure.Tables.{found};
ghost use Rattle.jh_closure.specs.declared.congruence_closure.node.Node.{Node};

use crate::congruence_closure::Node;
use indexmap::IndexMap;
use jh_name::NoMemory;
use std::alloc::Global;

/// For each signature that was met the first node that had it, in the order in which they were met.
#[derive(Drop)]
pub(crate) struct Signatures {
    pub(crate) nodes: IndexMap<Node, usize>,
}

impl Signatures {
    pub(crate) fn new(alloc: Global) -> Signatures
        ensures { result.nodes.entries ≡ [] }
    {
        Signatures {
            nodes: IndexMap::new(alloc),
        }
    }

    pub(crate) fn len(&self) -> usize
        ensures { result ≡ length self.now.nodes.entries }
    {
        self.nodes.len()
    }

    /// The node of a signature.
    pub(crate) fn known(&self, signature: Node) -> Option<usize>
        ensures { result ≡ found self.now.nodes.entries signature }
    {
        self.nodes.get(&signature).copied()
    }

    /// Notes a node for a signature that has none. Where memory is wanting nothing changes.
    pub(crate) fn note(&mut self, signature: Node, node: usize) -> Result<(), NoMemory>
        requires { found self.old.nodes.entries signature ≡ None }
        ensures noted { OnOk result (found self.new.nodes.entries signature ≡ Some node) }
        ensures others { OnOk result ((k : Node) (q : ℕ) → found self.new.nodes.entries k ≡ Some q → ((k ≡ signature) × (q ≡ node)) ⊎ (found self.old.nodes.entries k ≡ Some q)) }
        ensures stays { OnOk result ((k : Node) (q : ℕ) → found self.old.nodes.entries k ≡ Some q → found self.new.nodes.entries k ≡ Some q) }
        ensures entries { OnOk result (self.new.nodes.entries ≡ self.old.nodes.entries ++ (signature, node) ∷ []) }
        ensures err { OnErr result (self.new.nodes.entries ≡ self.old.nodes.entries) }
    {
        self.nodes.insert(signature, node)?;
        Ok(())
    }

    /// Forgets all but the first signatures.
    pub(crate) fn cut(&mut self, count: usize)
        ensures { self.new.nodes.entries ≡ take count self.old.nodes.entries }
    {
        self.nodes.truncate(count);
    }
}
