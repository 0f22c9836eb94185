ghost use Rattle.std.specs.Prelude.{◌≡◌, ◌↔◌, ◌≤◌, ◌<◌, ℕ, [], ◌∷◌, ◌++◌, IsTrue, OnOk, length, take, Some, slice_get};
ghost use Rattle.jh_open_branches.specs.Placed.{ArePlaced, Stands, noted};

use indexmap::IndexMap;
use jh_name::NoMemory;
use std::alloc::Global;

/// The facts of a branch, in the order in which they were added, some twice maybe. Beside the list is noted for each
/// node where it stands in it, if it does: so a fact is found at once, and the facts of a branch that is left are
/// forgotten by cutting the list alone.
#[derive(Drop)]
pub struct FactList {
    pub facts: Vec<usize>,
    pub places: IndexMap<usize, usize>,
}

impl FactList {
    /// No facts.
    pub fn new(alloc: Global) -> FactList
        ensures none { result.facts.items ≡ [] }
        ensures placed { ArePlaced result.facts.items (noted result.places) }
    {
        FactList {
            facts: Vec::new(alloc),
            places: IndexMap::new(alloc),
        }
    }

    /// The facts. It takes no memory.
    pub fn facts(&self) -> &[usize]
        ensures { result.now ≡ self.now.facts.items }
    {
        self.facts.as_slice()
    }

    /// Whether a node is among the facts. It takes no memory, and looks at one place alone.
    pub fn has(&self, node: usize) -> bool
        requires { ArePlaced self.now.facts.items (noted self.now.places) }
        ensures { IsTrue result ↔ Stands self.now.facts.items node }
    {
        match place_of(&self.places, node) {
            Some(place) => stands_at(self.facts.as_slice(), place, node),
            None => false,
        }
    }

    /// Adds a fact at the end.
    pub fn push(&mut self, node: usize) -> Result<(), NoMemory>
        requires { ArePlaced self.old.facts.items (noted self.old.places) }
        ensures added { OnOk result (self.new.facts.items ≡ self.old.facts.items ++ node ∷ []) }
        ensures placed { OnOk result (ArePlaced self.new.facts.items (noted self.new.places)) }
    {
        if !self.has(node) {
            note(&mut self.places, node, self.facts.as_slice().len())?;
        }
        self.facts.push(node)?;
        Ok(())
    }

    /// Forgets all facts but the first ones.
    pub fn cut(&mut self, count: usize)
        requires { ArePlaced self.old.facts.items (noted self.old.places) }
        ensures facts { self.new.facts.items ≡ take count self.old.facts.items }
        ensures placed { ArePlaced self.new.facts.items (noted self.new.places) }
    {
        self.facts.truncate(count);
    }
}

fn place_of(places: &IndexMap<usize, usize>, node: usize) -> Option<usize>
    ensures { result ≡ noted places.now node }
{
    places.get(&node).copied()
}

fn stands_at(facts: &[usize], place: usize, node: usize) -> bool
    ensures { IsTrue result ↔ (slice_get facts.now place ≡ Some node) }
{
    match facts.get(place) {
        Some(fact) => *fact == node,
        None => false,
    }
}

fn note(places: &mut IndexMap<usize, usize>, node: usize, place: usize) -> Result<(), NoMemory>
    ensures here { OnOk result (noted places.new node ≡ Some place) }
    ensures others { OnOk result ((n : ℕ) → (n ≡ node → ⊥) → noted places.new n ≡ noted places.old n) }
{
    places.insert(node, place)?;
    Ok(())
}
