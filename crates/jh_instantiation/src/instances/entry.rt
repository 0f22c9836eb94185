ghost use Rattle.std.specs.Prelude.{◌≡◌, ◌<◌, ◌++◌, ◌∷◌, [], List, IfOk, OnOk, Some, length, slice_get};
ghost use Rattle.jh_form.specs.Tree.{TermTree};
ghost use Rattle.jh_arena.specs.table.Entries.{Listing};
ghost use Rattle.jh_instantiation.specs.closed_terms.Listed.{AreTerms};
ghost use Rattle.jh_instantiation.specs.skolem_constants.Standing.{IsFormula};
ghost use Rattle.jh_inst.specs.instances.Entries.{Entry};
ghost use Rattle.jh_instantiation.specs.instances.Standing.{IsEntry, IsMade, AreTermsAt};

use jh_name::NoMemory;
use std::alloc::Global;

/// Where an entry comes from: a fact, by its number, or a universal that was put, by its place in the list.
#[derive(Clone, Copy, PartialEq, Eq)]
pub enum Origin {
    Fact(usize),
    Entry(usize),
}

/// An entry: the node of its formula, its source, where the terms stand at which the universal was put, the outermost
/// variable's first, and the turn of the first constant that was made and how many were.
#[derive(Clone, Copy)]
pub struct NodeEntry {
    pub formula: usize,
    pub source: Origin,
    pub terms: usize,
    pub variables: usize,
    pub first: u32,
    pub fresh: u32,
}

/// The list of facts and instances, and the nodes of the terms of all entries, one behind another.
#[derive(Drop)]
pub struct NodeEntries {
    pub items: Vec<NodeEntry>,
    pub terms: Vec<usize>,
}

impl NodeEntries {
    /// No entries.
    pub(crate) fn new(alloc: Global) -> NodeEntries
        ensures items { result.items.items ≡ [] }
        ensures terms { result.terms.items ≡ [] }
    {
        NodeEntries {
            items: Vec::new(alloc),
            terms: Vec::new(alloc),
        }
    }

    /// The node of the formula of the entry at a place.
    pub(crate) fn formula(&self, place: usize) -> usize
        requires { place < length self.now.items.items }
        ensures { (t : Listing) (es : List Entry) (e : Entry) → IsMade t self.now es → slice_get es place ≡ Some e → IsFormula t result e.formula }
    {
        self.items[place].formula
    }

    /// Adds an entry.
    pub(crate) fn add(&mut self, entry: NodeEntry) -> Result<(), NoMemory>
        ensures { (t : Listing) (es : List Entry) (e : Entry) → IsMade t self.old es → IsEntry t self.old.terms.items entry e → OnOk result (IsMade t self.new (es ++ (e ∷ []))) }
    {
        self.items.push(entry)?;
        Ok(())
    }

    /// Adds terms, and answers where the first of them stands.
    pub(crate) fn add_terms(&mut self, terms: &[usize]) -> Result<usize, NoMemory>
        ensures kept { (t : Listing) (es : List Entry) → IsMade t self.old es → OnOk result (IsMade t self.new es) }
        ensures there { (t : Listing) (ws : List TermTree) → AreTerms t terms.now ws → IfOk result (λ from. AreTermsAt t self.new.terms.items from ws) }
    {
        let from = self.terms.as_slice().len();
        self.terms.extend_from_slice(terms)?;
        Ok(from)
    }
}
