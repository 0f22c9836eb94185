ghost use Rattle.std.specs.Prelude.{◌≡◌, ◌<◌, ℕ, List, [], true, IfOk, Some, length, slice_get};
ghost use Rattle.jh_form.specs.Tree.{of_truth};
ghost use Rattle.jh_form.specs.Closed.{is_closed_value};
ghost use Rattle.jh_form.specs.Meaning.{Interp, InUniverse, truth, datum};
ghost use Rattle.jh_form.specs.Sorts.{tree_sort};
ghost use Rattle.jh_boxed_operations.specs.comparison.Inside.{SameIn, AreInside};
ghost use Rattle.jh_arena.specs.table.Entries.{is_truth, the_value, the_truth};
ghost use Rattle.jh_arena.specs.table.Growth.{Extends};
ghost use Rattle.jh_arena.specs.table.Nodes.{nodes};
ghost use Rattle.jh_substitution.specs.rewriting.Exchanging.{exchanging, CanExchange};
ghost use Rattle.jh_substitution.specs.rewriting.Rewritten.{rewritten_formula};
ghost use Rattle.jh_substitution.specs.rewriting.Staying.{exchanging-stays};

use crate::rewriting::rules::LeafRules;
use crate::rewriting::walking::walked;
use jh_arena::table::{Shape, Table};
use jh_name::NoMemory;

/// The rules by which one node stands for another, wherever that one stands.
#[derive(Clone, Copy)]
struct Exchanging {
    old: usize,
    new: usize,
}

impl LeafRules for Exchanging {
    ghost rewriting = { λ rules t. exchanging (the_value (slice_get (nodes t) rules.old)) (the_value (slice_get (nodes t) rules.new)) };

    ghost ready = { λ rules t. CanExchange rules.old rules.new t };

    fn leaf(
        &self,
        table: &mut Table,
        node: usize,
        _shape: Shape,
        _depth: u32,
    ) -> Result<usize, NoMemory> {
        table.nodes_differ();
        if node == self.old {
            Ok(self.new)
        } else {
            Ok(node)
        }
    }

    fn whole(
        &self,
        table: &mut Table,
        node: usize,
        _shape: Shape,
        _depth: u32,
    ) -> Result<Option<usize>, NoMemory> {
        table.nodes_differ();
        table.parts_come_first();
        if node == self.old {
            Ok(Some(self.new))
        } else if node < self.old {
            Ok(Some(node))
        } else {
            Ok(None)
        }
    }

    ghost stays = { λ rules. exchanging-stays rules.old rules.new };
}

/// The node of a formula in which each part that is the node `old` is exchanged for the node `new`, which
/// is of the same sort. Neither has loose bound variables, so that the parts stand under binders too. Nodes
/// before the old one, which can't have it as a part, are left alone.
/// Names in labels stay. Where both have the same value, for sets the same members in the universe, the
/// formula means what it did. The answer is want of memory where the formula nests deeper than MOST_LEVELS.
pub fn exchange(
    table: &mut Table,
    formula: usize,
    old: usize,
    new: usize,
) -> Result<usize, NoMemory>
    requires formula { is_truth (slice_get (nodes table.old) formula) ≡ true }
    requires old { old < length (nodes table.old) }
    requires new { new < length (nodes table.old) }
    requires sort { tree_sort (the_value (slice_get (nodes table.old) new)) ≡ tree_sort (the_value (slice_get (nodes table.old) old)) }
    requires closed_old { is_closed_value (the_value (slice_get (nodes table.old) old)) 0 ≡ true }
    requires closed_new { is_closed_value (the_value (slice_get (nodes table.old) new)) 0 ≡ true }
    ensures tree { IfOk result (λ made. slice_get (nodes table.new) made ≡ Some (of_truth (rewritten_formula (the_truth (slice_get (nodes table.old) formula)) (exchanging (the_value (slice_get (nodes table.old) old)) (the_value (slice_get (nodes table.old) new))) 0))) }
    ensures meaning { IfOk result (λ made. (m : Interp) (e : List ℕ) → InUniverse m → AreInside m.last e → SameIn m.last (datum (the_value (slice_get (nodes table.old) old)) m []) (datum (the_value (slice_get (nodes table.old) new)) m []) → truth (the_truth (slice_get (nodes table.new) made)) m e ≡ truth (the_truth (slice_get (nodes table.old) formula)) m e) }
    ensures grows { Extends table.old table.new }
{
    walked(table, &Exchanging { old, new }, formula, 0)
}
