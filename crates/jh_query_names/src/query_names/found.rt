ghost use Rattle.std.specs.Prelude.{◌≡◌, List, [], OnOk, nat_eq};
ghost use Rattle.indexmap.specs.IndexSet.{insert_key};
ghost use Rattle.jh_form.specs.Tree.{ValueTree};
ghost use Rattle.jh_query_names.specs.query_names.Finding.{IsFound, has_node};

use indexmap::IndexSet;
use jh_name::NoMemory;
use std::alloc::Global;

/// The nodes that are names, in the order in which they were found first, and the nodes that were seen.
#[derive(Drop)]
pub struct Found {
    pub names: IndexSet<usize>,
    pub seen: IndexSet<usize>,
}

impl Found {
    fn empty(alloc: Global) -> Found
        ensures names { result.names.keys ≡ [] }
        ensures seen { result.seen.keys ≡ [] }
    {
        Found {
            names: IndexSet::new(alloc),
            seen: IndexSet::new(alloc),
        }
    }

    /// Nothing was found.
    pub fn new(alloc: Global) -> Found
        ensures names { result.names.keys ≡ [] }
        ensures found { (ts : List ValueTree) → IsFound ts result.names.keys result.seen.keys }
    {
        let made = Found::empty(alloc);
        made
    }

    /// Whether a node was seen.
    pub(crate) fn has_seen(&self, node: usize) -> bool
        ensures { result ≡ has_node self.now.seen.keys node }
    {
        self.seen.contains(&node)
    }

    /// Notes a name.
    pub(crate) fn note(&mut self, node: usize) -> Result<(), NoMemory>
        ensures names { OnOk result (self.new.names.keys ≡ insert_key nat_eq self.old.names.keys node) }
        ensures seen { OnOk result (self.new.seen.keys ≡ self.old.seen.keys) }
    {
        self.names.insert(node)?;
        Ok(())
    }

    /// Notes that a node was seen.
    pub(crate) fn see(&mut self, node: usize) -> Result<(), NoMemory>
        ensures names { OnOk result (self.new.names.keys ≡ self.old.names.keys) }
        ensures seen { OnOk result (self.new.seen.keys ≡ insert_key nat_eq self.old.seen.keys node) }
    {
        self.seen.insert(node)?;
        Ok(())
    }
}
