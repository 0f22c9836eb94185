ghost use Rattle.std.specs.Prelude.{◌≡◌, ℕ, List, [], ◌∷◌, ◌++◌, length, Some, None, ◌⊎◌, IfOk, OnOk};
ghost use Rattle.jh_form.specs.Tree.{ValueTree};
ghost use Rattle.jh_query_names.specs.visible_part.Memos.{found as found_shown};
ghost use Rattle.jh_query_names.specs.visible_part.Showing.{HoldsShown};
ghost use Rattle.jh_query_names.specs.mentioned_names.Memos.{found};
ghost use Rattle.jh_query_names.specs.mentioned_names.Notes.{IsRight};

use indexmap::IndexMap;
use jh_name::{NoMemory, Row};
use std::alloc::Global;

/// What is noted of a fact.
#[derive(Drop)]
pub struct Note {
    /// The node of what a query can say of the fact, which stands negatively.
    pub shown: usize,
    /// The nodes of the names of that, each once.
    pub names: Row<usize>,
    /// The nodes of the free names of the fact, each once.
    pub free: Row<usize>,
}

/// The facts that were mentioned, and what was shown so far.
#[derive(Drop)]
pub struct Memo {
    pub shown: crate::visible_part::Memo,
    pub places: IndexMap<usize, usize>,
    pub notes: Vec<Note>,
}

impl Memo {
    fn empty(alloc: Global) -> Memo
        ensures shown { (ts : List ValueTree) → HoldsShown ts (found_shown result.shown.answers) }
        ensures places { (k : ℕ) → found result.places k ≡ None }
    {
        Memo {
            shown: crate::visible_part::Memo::new(alloc),
            places: IndexMap::new(alloc),
            notes: Vec::new(alloc),
        }
    }

    /// Nothing was mentioned.
    pub fn new(alloc: Global) -> Memo
        ensures { (ts : List ValueTree) → IsRight ts result }
    {
        let made = Memo::empty(alloc);
        made
    }

    /// The place of the note of a fact.
    pub fn find(&self, fact: usize) -> Option<usize>
        ensures { result ≡ found self.now.places fact }
    {
        self.places.get(&fact).copied()
    }

    /// Adds the note of a fact, and answers its place. What else was noted stays.
    pub(crate) fn add(&mut self, fact: usize, note: Note) -> Result<usize, NoMemory>
        ensures place { IfOk result (λ place. place ≡ length self.old.notes.items) }
        ensures notes { OnOk result (self.new.notes.items ≡ self.old.notes.items ++ note ∷ []) }
        ensures others { OnOk result ((k : ℕ) (r : ℕ) → found self.new.places k ≡ Some r → ((k ≡ fact) × (r ≡ length self.old.notes.items)) ⊎ (found self.old.places k ≡ Some r)) }
        ensures shown { OnOk result (self.new.shown ≡ self.old.shown) }
    {
        let place = self.notes.len();
        self.notes.push(note)?;
        self.places.insert(fact, place)?;
        Ok(place)
    }
}
