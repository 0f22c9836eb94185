ghost use Rattle.std.specs.Prelude.{◌≡◌, ◌<◌, ◌++◌, ◌∷◌, [], false, Some, nat_eq, length, slice_get, OnOk, OnErr};
ghost use Rattle.std.specs.List.{list_any};

use indexmap::IndexSet;
use jh_name::NoMemory;
use std::alloc::Global;
use std::marker::Model;

/// Things that are done, each once, in the order in which they were done. Contracts see it as the list of their
/// numbers.
#[derive(Drop)]
pub struct Done {
    things: IndexSet<usize>,
}

impl Model for Done {
    ghost use Rattle.std.specs.Prelude.{List, ℕ};

    ghost Value = { List ℕ };

    ghost view = { λ list. list.things.keys };
}

impl Done {
    /// Nothing is done. The list takes its memory from this allocator.
    pub fn new(alloc: Global) -> Done
        ensures { result ≡ [] }
    {
        Done {
            things: IndexSet::new(alloc),
        }
    }

    /// How many things are done.
    pub fn len(&self) -> usize
        ensures { result ≡ length self.now }
    {
        self.things.len()
    }

    /// The thing at a place of the list.
    pub fn at(&self, index: usize) -> usize
        requires { index < length self.now }
        ensures { slice_get self.now index ≡ Some result }
    {
        self.things[index]
    }

    /// Whether a thing is done.
    pub fn has(&self, thing: usize) -> bool
        ensures { result ≡ list_any (nat_eq thing) self.now }
    {
        self.things.contains(&thing)
    }

    /// Puts a thing that isn't done at the end. After want of memory the list is as it was.
    pub(crate) fn add(&mut self, thing: usize) -> Result<(), NoMemory>
        requires { list_any (nat_eq thing) self.old ≡ false }
        ensures added { OnOk result (self.new ≡ self.old ++ thing ∷ []) }
        ensures err { OnErr result (self.new ≡ self.old) }
    {
        self.things.insert(thing)?;
        Ok(())
    }
}
