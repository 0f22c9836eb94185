ghost use Rattle.std.specs.Prelude.{◌≡◌, Some, None, ℕ, ◌⊎◌, OnOk};
ghost use Rattle.jh_import.specs.carrying.Memos.{found};

use indexmap::IndexMap;
use jh_name::NoMemory;
use std::alloc::Global;

/// The answers of a walk so far.
#[derive(Drop)]
pub struct Memo {
    pub(crate) answers: IndexMap<usize, usize>,
}

impl Memo {
    /// No answers.
    pub fn new(alloc: Global) -> Memo
        ensures { (k : ℕ) → found result.answers k ≡ None }
    {
        Memo {
            answers: IndexMap::new(alloc),
        }
    }

    /// The answer that was noted last for the node.
    pub fn known(&self, node: usize) -> Option<usize>
        ensures { result ≡ found self.now.answers node }
    {
        self.answers.get(&node).copied()
    }

    /// Notes the answer for the node. The other answers stay.
    pub fn note(&mut self, node: usize, answer: usize) -> Result<(), NoMemory>
        ensures noted { OnOk result (found self.new.answers node ≡ Some answer) }
        ensures others { OnOk result ((k : ℕ) (r : ℕ) → found self.new.answers k ≡ Some r → ((k ≡ node) × (r ≡ answer)) ⊎ (found self.old.answers k ≡ Some r)) }
    {
        self.answers.insert(node, answer)?;
        Ok(())
    }
}
