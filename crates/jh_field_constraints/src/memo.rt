ghost use Rattle.std.specs.Prelude.{◌≡◌, Some, None, ℕ, ◌⊎◌, OnOk};
ghost use Rattle.jh_field_constraints.specs.Memos.{found};

use indexmap::IndexMap;
use jh_name::NoMemory;
use std::alloc::Global;

/// A formula, and how it stands: positively or negatively.
#[derive(Clone, Copy, PartialEq, Eq, Hash)]
pub struct Signed {
    pub node: usize,
    pub positive: bool,
}

/// The answers of a walk so far.
#[derive(Drop)]
pub struct Memo {
    pub(crate) answers: IndexMap<Signed, usize>,
}

impl Memo {
    /// No answers.
    pub fn new(alloc: Global) -> Memo
        ensures { (k : Signed) → found result.answers k ≡ None }
    {
        Memo {
            answers: IndexMap::new(alloc),
        }
    }

    /// The answer that was noted last for the formula.
    pub fn known(&self, key: Signed) -> Option<usize>
        ensures { result ≡ found self.now.answers key }
    {
        self.answers.get(&key).copied()
    }

    /// Notes the answer for the formula. The other answers stay.
    pub fn note(&mut self, key: Signed, answer: usize) -> Result<(), NoMemory>
        ensures noted { OnOk result (found self.new.answers key ≡ Some answer) }
        ensures others { OnOk result ((k : Signed) (r : ℕ) → found self.new.answers k ≡ Some r → ((k ≡ key) × (r ≡ answer)) ⊎ (found self.old.answers k ≡ Some r)) }
    {
        self.answers.insert(key, answer)?;
        Ok(())
    }
}
