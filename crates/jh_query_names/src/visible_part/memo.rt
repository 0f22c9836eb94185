ghost use Rattle.std.specs.Prelude.{◌≡◌, List, Some, None, ◌⊎◌, OnOk};
ghost use Rattle.jh_form.specs.Tree.{ValueTree};
ghost use Rattle.jh_query_names.specs.visible_part.Memos.{found};
ghost use Rattle.jh_query_names.specs.visible_part.Showing.{HoldsShown};

use indexmap::IndexMap;
use jh_name::NoMemory;
use std::alloc::Global;

/// A formula, and whether it stands positively in its sequent.
#[derive(Clone, Copy, PartialEq, Eq, Hash)]
pub struct Signed {
    pub node: usize,
    pub positive: bool,
}

/// What is shown of a formula, and whether that is all of it.
#[derive(Clone, Copy, PartialEq, Eq)]
pub struct Made {
    pub node: usize,
    pub sayable: bool,
}

/// What was shown so far.
#[derive(Drop)]
pub struct Memo {
    pub answers: IndexMap<Signed, Made>,
}

impl Memo {
    fn empty(alloc: Global) -> Memo
        ensures { (k : Signed) → found result.answers k ≡ None }
    {
        Memo {
            answers: IndexMap::new(alloc),
        }
    }

    /// Nothing was shown.
    pub fn new(alloc: Global) -> Memo
        ensures { (ts : List ValueTree) → HoldsShown ts (found result.answers) }
    {
        let made = Memo::empty(alloc);
        made
    }

    /// What was noted last of the formula.
    pub(crate) fn known(&self, key: Signed) -> Option<Made>
        ensures { result ≡ found self.now.answers key }
    {
        self.answers.get(&key).copied()
    }

    /// Notes what is shown of the formula. What else was noted stays.
    pub(crate) fn note(&mut self, key: Signed, answer: Made) -> Result<(), NoMemory>
        ensures noted { OnOk result (found self.new.answers key ≡ Some answer) }
        ensures others { OnOk result ((k : Signed) (r : Made) → found self.new.answers k ≡ Some r → ((k ≡ key) × (r ≡ answer)) ⊎ (found self.old.answers k ≡ Some r)) }
    {
        self.answers.insert(key, answer)?;
        Ok(())
    }
}
