#![tactic(auto, using(jh_export::proofs::Places::pool_steps))]

ghost use Rattle.std.specs.Prelude.{◌≡◌, ◌<◌, true, length, slice_get, is_some};
ghost use Rattle.jh_form.specs.Sorts.{tree_sort};
ghost use Rattle.jh_arena.specs.table.Entries.{the_list, the_value};
ghost use Rattle.jh_arena.specs.table.Nodes.{nodes};
ghost use Rattle.jh_export.specs.Standing.{Stands};

use crate::world::World;
use jh_arena::table::Shape;
use jh_name::Sort;

/// The shape of a node, with what is known of it.
#[inline(never)]
pub(crate) fn standing<W: World>(world: &W, node: usize) -> Shape
    requires { node < length (nodes (W.listing world.now)) }
    ensures { Stands (W.listing world.now) node result }
{
    world.table().shape(node)
}

/// The sort of a node.
#[inline(never)]
pub(crate) fn sort_of<W: World>(world: &W, node: usize) -> Sort
    requires { node < length (nodes (W.listing world.now)) }
    ensures { result ≡ tree_sort (the_value (slice_get (nodes (W.listing world.now)) node)) }
{
    world.table().sort(node)
}

/// The list of fields of this number.
pub(crate) fn fields_of<W: World>(world: &W, list: usize) -> &[usize]
    requires { is_some (slice_get (W.listing world.now).pools.lists list) ≡ true }
    ensures { result.now ≡ the_list (slice_get (W.listing world.now).pools.lists list) }
{
    world.table().list_at(list)
}
