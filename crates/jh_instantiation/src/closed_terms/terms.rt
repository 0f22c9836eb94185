ghost use Rattle.std.specs.Prelude.{◌≡◌, ◌<◌, [], ◌∷◌, IfOk, OnOk, Some, length, nat_eq, slice_get};
ghost use Rattle.std.specs.List.{IsDistinct};
ghost use Rattle.indexmap.specs.IndexSet.{insert_key};
ghost use Rattle.jh_form.specs.Tree as t;
ghost use Rattle.jh_arena.specs.table.Growth.{Extends};
ghost use Rattle.jh_instantiation.specs.closed_terms.Listed.{AreTerms};

use indexmap::IndexSet;
use jh_arena::makers::null;
use jh_arena::table::Table;
use jh_name::NoMemory;
use std::alloc::Global;

/// Nodes of terms for objects, each once, in the order in which they were added.
#[derive(Drop)]
pub struct Terms {
    pub nodes: IndexSet<usize>,
}

impl Terms {
    /// No terms. The list takes its memory from this allocator.
    pub fn new(alloc: Global) -> Terms
        ensures { result.nodes.keys ≡ [] }
    {
        Terms {
            nodes: IndexSet::new(alloc),
        }
    }

    /// Null alone, which is added to the table where it is new.
    pub fn with_null(table: &mut Table) -> Result<Terms, NoMemory>
        ensures terms { IfOk result (λ made. AreTerms table.new made.nodes.keys (t.null ∷ [])) }
        ensures grows { Extends table.old table.new }
    {
        let null = null(table)?;
        let mut terms = Terms::new(table.alloc());
        terms.add(null)?;
        Ok(terms)
    }

    /// How many terms there are.
    pub fn len(&self) -> usize
        ensures { result ≡ length self.now.nodes.keys }
    {
        self.nodes.len()
    }

    /// The node of the term at a place.
    pub fn at(&self, place: usize) -> usize
        requires { place < length self.now.nodes.keys }
        ensures { slice_get self.now.nodes.keys place ≡ Some result }
    {
        self.nodes[place]
    }

    /// Adds a node at the end, where it isn't there.
    pub fn add(&mut self, node: usize) -> Result<(), NoMemory>
        ensures { OnOk result (self.new.nodes.keys ≡ insert_key nat_eq self.old.nodes.keys node) }
    {
        self.nodes.insert(node)?;
        Ok(())
    }

    /// Each node stands once. It is a law, and changes nothing.
    pub fn differ(&self)
        ensures { IsDistinct nat_eq self.now.nodes.keys }
    {
        let _count = self.nodes.len();
    }
}
