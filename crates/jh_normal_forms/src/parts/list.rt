ghost use Rattle.std.specs.Prelude.{◌≡◌, ◌<◌, [], Some, nat_eq, length, slice_get, OnOk, OnErr};
ghost use Rattle.std.specs.List.{list_any};
ghost use Rattle.indexmap.specs.IndexSet.{insert_key};

use indexmap::IndexSet;
use jh_name::NoMemory;
use std::alloc::Global;
use std::marker::Model;

/// Nodes of a table, each once, in the order in which they were added. Contracts see it as the list of their numbers.
#[derive(Drop)]
pub struct NodeList {
    nodes: IndexSet<usize>,
}

impl Model for NodeList {
    ghost use Rattle.std.specs.Prelude.{List, ℕ};

    ghost Value = { List ℕ };

    ghost view = { λ list. list.nodes.keys };
}

impl NodeList {
    /// No nodes. The list takes its memory from this allocator.
    pub fn new(alloc: Global) -> NodeList
        ensures { result ≡ [] }
    {
        NodeList {
            nodes: IndexSet::new(alloc),
        }
    }

    /// The number of nodes in the list.
    pub fn len(&self) -> usize
        ensures { result ≡ length self.now }
    {
        self.nodes.len()
    }

    /// The node at a place of the list.
    pub fn at(&self, index: usize) -> usize
        requires { index < length self.now }
        ensures { slice_get self.now index ≡ Some result }
    {
        self.nodes[index]
    }

    /// Whether a node is in the list.
    pub fn has(&self, node: usize) -> bool
        ensures { result ≡ list_any (nat_eq node) self.now }
    {
        self.nodes.contains(&node)
    }

    /// Adds a node at the end, where it isn't in the list. After want of memory the list is as it was.
    pub fn add(&mut self, node: usize) -> Result<(), NoMemory>
        ensures added { OnOk result (self.new ≡ insert_key nat_eq self.old node) }
        ensures err { OnErr result (self.new ≡ self.old) }
    {
        self.nodes.insert(node)?;
        Ok(())
    }
}
