ghost use Rattle.std.specs.Prelude.{◌<◌, length};
ghost use Rattle.jh_arena.specs.table.Nodes.{nodes};
ghost use Rattle.jh_export.specs.Standing.{Stands};

use jh_arena::table::{Shape, Table};

/// The shape of a node, with what is known of it.
#[inline(never)]
pub(crate) fn standing(table: &Table, node: usize) -> Shape
    requires { node < length (nodes table.now) }
    ensures { Stands table.now node result }
{
    table.shape(node)
}
