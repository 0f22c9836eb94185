ghost use Rattle.std.specs.Prelude.{◌≡◌, ◌<◌, ◌≤◌, ◌+◌, ℕ, true, IfOk, Some, length, slice_get};
ghost use Rattle.jh_arena.specs.table.Growth.{Extends, AddsOnly};
ghost use Rattle.jh_arena.specs.table.Nodes.{nodes, fits_in, tree_in};
ghost use Rattle.jh_arena.specs.table.Parts.{ArePartsBelow};

use crate::table::{Arena, Shape};
use jh_boxed::jh_name::NoMemory;

impl Arena {
    /// As `Table::make`.
    pub fn make(&mut self, shape: Shape) -> Result<usize, NoMemory>
        requires { fits_in self.old shape ≡ true }
        ensures node { IfOk result (λ node. slice_get (nodes self.new) node ≡ Some (tree_in self.old shape)) }
        ensures grows { Extends self.old self.new }
        ensures pools { self.new.pools ≡ self.old.pools }
        ensures kept { (node : ℕ) → slice_get (nodes self.old) node ≡ Some (tree_in self.old shape) → (self.new ≡ self.old) × (result ≡ Ok node) }
        ensures one { length (nodes self.new) ≤ length (nodes self.old) + 1 }
        ensures only { AddsOnly (λ v. v ≡ tree_in self.old shape) self.old self.new }
    {
        self.nodes_differ();
        match self.nodes.get_index_of(&shape) {
            Some(node) => Ok(node),
            None => {
                let extent = self.measured(shape);
                let (node, _) = self.nodes.insert_full(shape, extent)?;
                Ok(node)
            }
        }
    }

    /// As `Table::shape`.
    pub fn shape(&self, node: usize) -> Shape
        requires { node < length (nodes self.now) }
        ensures tree { slice_get (nodes self.now) node ≡ Some (tree_in self.now result) }
        ensures fits { fits_in self.now result ≡ true }
        ensures below { ArePartsBelow node self.now.pools.lists result }
    {
        match self.nodes.get_index(node) {
            Some((shape, _)) => *shape,
            None => Shape::Null,
        }
    }
}
