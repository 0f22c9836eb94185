#![tactic(auto, using(jh_arena::proofs::table::Listed::growth_steps))]

ghost use Rattle.std.specs.Prelude.{◌≡◌, true, IfOk, Some, slice_get};
ghost use Rattle.jh_form.specs.Tree.{of_truth};
ghost use Rattle.jh_form.specs.Closed.{is_closed_term};
ghost use Rattle.jh_boxed_operations.specs.substitution.Opened.{opened};
ghost use Rattle.jh_arena.specs.table.Entries.{is_object, is_truth, the_object, the_truth};
ghost use Rattle.jh_arena.specs.table.Growth.{Extends};
ghost use Rattle.jh_arena.specs.table.Nodes.{nodes};

use crate::opening::walking::put;
use jh_arena::table::Table;
use jh_name::NoMemory;

/// The most nodes of a formula, each counted where it stands, whose parts are met where they stand.
const MOST_NODES: u64 = 256;

/// The node of a binder's body with the term at `with` for the binder's own variable, which has number 0 outside all inner binders.
/// The numbers of the loose bound variables beyond it fall by one. Parts without loose bound variables are left alone. The answer is
/// want of memory where the body nests deeper than MOST_LEVELS.
pub fn open(table: &mut Table, body: usize, with: usize) -> Result<usize, NoMemory>
    requires body { is_truth (slice_get (nodes table.old) body) ≡ true }
    requires with { is_object (slice_get (nodes table.old) with) ≡ true }
    requires closed { is_closed_term (the_object (slice_get (nodes table.old) with)) 0 ≡ true }
    ensures tree { IfOk result (λ made. slice_get (nodes table.new) made ≡ Some (of_truth (opened (the_truth (slice_get (nodes table.old) body)) (the_object (slice_get (nodes table.old) with))))) }
    ensures grows { Extends table.old table.new }
{
    if table.size(body) > MOST_NODES {
        return crate::rewriting::open(table, body, with);
    }
    put(table, with, body, 0)
}
