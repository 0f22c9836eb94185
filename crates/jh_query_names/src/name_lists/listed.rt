ghost use Rattle.std.specs.Prelude.{◌≡◌, []};

use indexmap::IndexSet;
use std::alloc::Global;

/// The nodes of the names of a query, by their sorts, in the order in which they first stand.
#[derive(Drop)]
pub struct Listed {
    pub sets: IndexSet<usize>,
    /// Null is the first.
    pub elements: IndexSet<usize>,
    pub numbers: IndexSet<usize>,
    pub flags: IndexSet<usize>,
}

impl Listed {
    /// No names.
    pub(crate) fn empty(alloc: Global) -> Listed
        ensures sets { result.sets.keys ≡ [] }
        ensures elements { result.elements.keys ≡ [] }
        ensures numbers { result.numbers.keys ≡ [] }
        ensures flags { result.flags.keys ≡ [] }
    {
        Listed {
            sets: IndexSet::new(alloc),
            elements: IndexSet::new(alloc),
            numbers: IndexSet::new(alloc),
            flags: IndexSet::new(alloc),
        }
    }
}
