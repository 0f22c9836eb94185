ghost use Rattle.std.specs.Prelude.{◌≡◌, ◌<◌, true, IfOk, length, slice_get, is_some};
ghost use Rattle.jh_arena.specs.table.Entries.{the_name, the_mark, the_list};
ghost use Rattle.jh_arena.specs.table.Nodes.{nodes};
ghost use Rattle.jh_export.specs.Standing.{Stands};

use jh_arena::jh_boxed::copy_mark;
use jh_arena::table::{Shape, Table};
use jh_form::Mark;
use jh_name::{Name, NoMemory};

/// The shape of a node, with what is known of it.
#[inline(never)]
pub fn standing(table: &Table, node: usize) -> Shape
    requires { node < length (nodes table.now) }
    ensures { Stands table.now node result }
{
    table.shape(node)
}

/// The name of this number.
#[inline(never)]
#[tactic(auto, using(crate::proofs::Places::pool_steps))]
pub fn name_of(table: &Table, number: usize) -> Result<Name, NoMemory>
    requires { is_some (slice_get table.now.pools.names number) ≡ true }
    ensures { IfOk result (λ made. made ≡ the_name (slice_get table.now.pools.names number)) }
{
    table.name_at(number).copy(table.alloc())
}

/// The label of this number.
#[inline(never)]
#[tactic(auto, using(crate::proofs::Places::pool_steps))]
pub fn mark_of(table: &Table, number: usize) -> Result<Mark, NoMemory>
    requires { is_some (slice_get table.now.pools.marks number) ≡ true }
    ensures { IfOk result (λ made. made ≡ the_mark (slice_get table.now.pools.marks number)) }
{
    copy_mark(table.alloc(), table.mark_at(number))
}

/// The list of nodes of this number.
#[tactic(auto, using(crate::proofs::Places::pool_steps))]
pub fn list_of(table: &Table, number: usize) -> &[usize]
    requires { is_some (slice_get table.now.pools.lists number) ≡ true }
    ensures { result.now ≡ the_list (slice_get table.now.pools.lists number) }
{
    table.list_at(number)
}
