ghost use Rattle.std.specs.Prelude.{◌≡◌, ◌<◌, true, not, IfSome, None, Some, length, slice_get};
ghost use Rattle.jh_form.specs.Passing.{value_passes, name_equal};
ghost use Rattle.jh_arena.specs.table.Entries.{the_value};
ghost use Rattle.jh_arena.specs.table.Nodes.{nodes};

use jh_arena::table::Table;
use jh_name::Name;

/// The number of a name that may stand free in a node, or none where it doesn't. It takes no memory and looks
/// at one node alone.
pub(crate) fn standing(table: &Table, node: usize, name: &Name) -> Option<usize>
    requires { node < length (nodes table.now) }
    ensures number { IfSome result (λ number. slice_get table.now.pools.names number ≡ Some name.now) }
    ensures nowhere { result ≡ None → value_passes (the_value (slice_get (nodes table.now) node)) (λ y s. not (name_equal y name.now)) ≡ true }
{
    match table.number_of(name) {
        None => None,
        Some(number) => {
            if table.may_hold(node, number) {
                Some(number)
            } else {
                None
            }
        }
    }
}
