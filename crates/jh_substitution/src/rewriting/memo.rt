ghost use Rattle.std.specs.Prelude.{◌≡◌, Some, None, ℕ, ◌⊎◌, OnOk, IfOk};
ghost use Rattle.jh_substitution.specs.rewriting.Memos.{found};

use indexmap::IndexMap;
use jh_name::NoMemory;
use std::alloc::Global;

/// A node, seen where this number of binders were passed.
#[derive(Clone, Copy, PartialEq, Eq, Hash)]
pub struct Key {
    pub node: usize,
    pub depth: u32,
}

/// The answers of a walk so far.
#[derive(Drop)]
pub struct Memo {
    pub(crate) answers: IndexMap<Key, usize>,
}

impl Memo {
    /// No answers.
    pub fn new(alloc: Global) -> Memo
        ensures { (k : Key) → found result.answers k ≡ None }
    {
        Memo {
            answers: IndexMap::new(alloc),
        }
    }

    /// The answer that was noted last for the key.
    pub fn known(&self, key: Key) -> Option<usize>
        ensures { result ≡ found self.now.answers key }
    {
        self.answers.get(&key).copied()
    }

    /// Notes the answer for the key. The other answers stay.
    pub fn note(&mut self, key: Key, answer: usize) -> Result<(), NoMemory>
        ensures noted { OnOk result (found self.new.answers key ≡ Some answer) }
        ensures others { OnOk result ((k : Key) (r : ℕ) → found self.new.answers k ≡ Some r → ((k ≡ key) × (r ≡ answer)) ⊎ (found self.old.answers k ≡ Some r)) }
    {
        self.answers.insert(key, answer)?;
        Ok(())
    }
}
