ghost use Rattle.std.specs.Prelude.{◌≡◌, ℕ, ◌<◌, Some, slice_get, true};
ghost use Rattle.jh_form.specs.Tree.{ValueTree};
ghost use Rattle.jh_boxed.specs.Parts.{IsChild};
ghost use Rattle.jh_arena.specs.table.Growth.{AreDifferent};
ghost use Rattle.jh_arena.specs.table.Nodes.{nodes, fits_in, tree_in};
ghost use Rattle.jh_arena.specs.declared.table.shapes.Shape.{Shape};

use crate::table::Arena;

impl Arena {
    /// As `Table::nodes_differ`.
    pub fn nodes_differ(&self)
        ensures different { AreDifferent (nodes self.now) }
        ensures known { (node : ℕ) (shape : Shape) → fits_in self.now shape ≡ true → slice_get (nodes self.now) node ≡ Some (tree_in self.now shape) → slice_get self.now.shapes node ≡ Some shape }
    {
        let _count = self.nodes.len();
        let _names = self.names.len();
        let _marks = self.marks.len();
        let _lists = self.lists.len();
    }

    /// As `Table::parts_come_first`.
    pub fn parts_come_first(&self)
        ensures { (n : ℕ) (v w : ValueTree) → slice_get (nodes self.now) n ≡ Some v → IsChild w v → (m : ℕ) × (m < n) × (slice_get (nodes self.now) m ≡ Some w) }
    {
        let _alloc = &self.alloc;
    }
}
