ghost use Rattle.std.specs.Prelude.{◌≡◌, true, false, Some, IfOk, slice_get};
ghost use Rattle.jh_arena.specs.table.Entries.{Listing};
ghost use Rattle.jh_arena.specs.table.Growth.{Extends};
ghost use Rattle.jh_arena.specs.table.Nodes.{nodes, tree_in, fits_in};
ghost use Rattle.jh_substitution.specs.rewriting.Walks.{IsRewritten, StandsFor, Stays};
ghost use Rattle.jh_substitution.specs.rewriting.Rewritten.{Rewriting};
ghost use Rattle.jh_substitution.specs.rewriting.Leaf.{is_leaf};

use jh_arena::table::{Shape, Table};
use jh_name::NoMemory;

/// What stands for the leaves of a tree, which are its free names and its bound variables, and for some
/// of its whole parts. A set of rules names nodes by number, so what it says hangs on the table; it
/// stays while the table grows.
pub trait LeafRules {
    ghost rewriting: { Self → Listing → Rewriting };

    ghost ready: { Self → Listing → Type 0 };

    /// The node that stands for a free name or a bound variable, which is the shape at `node`, where
    /// `depth` binders were passed on the way to it.
    fn leaf(
        &self,
        table: &mut Table,
        node: usize,
        shape: Shape,
        depth: u32,
    ) -> Result<usize, NoMemory>
        requires ready { ready self.now table.old }
        requires there { slice_get (nodes table.old) node ≡ Some (tree_in table.old shape) }
        requires fits { fits_in table.old shape ≡ true }
        requires leaf { is_leaf shape ≡ true }
        ensures node { IfOk result (λ made. IsRewritten (rewriting self.now table.new) (nodes table.new) node depth made) }
        ensures grows { Extends table.old table.new };

    /// The node that stands for all of a part that is no leaf, or none where the walk is to go into its
    /// parts.
    fn whole(
        &self,
        table: &mut Table,
        node: usize,
        shape: Shape,
        depth: u32,
    ) -> Result<Option<usize>, NoMemory>
        requires ready { ready self.now table.old }
        requires there { slice_get (nodes table.old) node ≡ Some (tree_in table.old shape) }
        requires fits { fits_in table.old shape ≡ true }
        requires inner { is_leaf shape ≡ false }
        ensures node { IfOk result (λ made. StandsFor (rewriting self.now table.new) (nodes table.new) node depth made) }
        ensures grows { Extends table.old table.new };

    ghost stays: { (rules : Self) → Stays (ready rules) (rewriting rules) };
}
