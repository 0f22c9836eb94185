ghost use Rattle.std.specs.Prelude.{◌≡◌, true, Some, IfOk, slice_get};
ghost use Rattle.jh_arena.specs.table.Growth.{Extends};
ghost use Rattle.jh_arena.specs.table.Nodes.{nodes, tree_in, fits_in};
ghost use Rattle.jh_normal_forms.specs.rebuilding.Built.{Rule};
ghost use Rattle.jh_normal_forms.specs.rebuilding.Walking.{applied};

use crate::rebuilding::Polarity;
use jh_arena::table::{Shape, Table};
use jh_name::NoMemory;

/// What a walk from below makes of each part.
pub trait BuildRules {
    ghost rule: { Self → Rule };

    /// The node for a shape over the answers for its parts, where it stands so.
    fn made(&self, table: &mut Table, shape: Shape, polarity: Polarity) -> Result<usize, NoMemory>
        requires fits { fits_in table.old shape ≡ true }
        ensures node { IfOk result (λ made. slice_get (nodes table.new) made ≡ Some (applied (tree_in table.old shape) (rule self.now) polarity)) }
        ensures grows { Extends table.old table.new };
}
