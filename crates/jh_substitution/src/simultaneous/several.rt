ghost use Rattle.std.specs.Prelude.{◌≡◌, ◌≤◌, ◌<◌, ℕ, List, true, false, IfOk, Some, length, slice_get};
ghost use Rattle.jh_form.specs.Tree.{of_truth};
ghost use Rattle.jh_form.specs.Meaning.{Interp, truth};
ghost use Rattle.jh_form.specs.Passing.{value_passes};
ghost use Rattle.jh_boxed.specs.Mapped.{mapped_formula};
ghost use Rattle.jh_boxed.specs.Sizes.{value_depth};
ghost use Rattle.jh_arena.specs.table.Entries.{is_truth, the_truth, the_value};
ghost use Rattle.jh_arena.specs.table.Growth.{Extends};
ghost use Rattle.jh_arena.specs.table.Nodes.{nodes};
ghost use Rattle.jh_substitution.specs.rewriting.Rewritten.{leaves_alone};
ghost use Rattle.jh_substitution.specs.simultaneous.Pairs.{pairs_in, AreReady, chosen_of, several-stays};
ghost use Rattle.jh_substitution.specs.simultaneous.Several.{instead, none_of, all_closed, all_assigned};

use crate::rewriting::{LeafRules, walked};
use crate::simultaneous::pairs::Instead;
use jh_arena::table::{Shape, Table};
use jh_name::NoMemory;

/// The rules by which each name of a list has a node put for it.
#[derive(Clone, Copy)]
struct Several<'a> {
    pairs: &'a [Instead],
}

impl LeafRules for Several<'_> {
    ghost rewriting = { λ rules t. leaves_alone (instead (pairs_in t rules.pairs.now)) };

    ghost ready = { λ rules t. AreReady t rules.pairs.now };

    fn leaf(
        &self,
        table: &mut Table,
        node: usize,
        _shape: Shape,
        _depth: u32,
    ) -> Result<usize, NoMemory> {
        table.nodes_differ();
        Ok(chosen(self.pairs, node))
    }

    fn whole(
        &self,
        table: &mut Table,
        node: usize,
        _shape: Shape,
        _depth: u32,
    ) -> Result<Option<usize>, NoMemory> {
        if holds_none(table, self.pairs, node) {
            Ok(Some(node))
        } else {
            Ok(None)
        }
    }

    ghost stays = { λ rules. several-stays rules.pairs.now };
}

/// The node that is put for a leaf: the value of its pair, or else the leaf.
fn chosen(pairs: &[Instead], node: usize) -> usize
    ensures { result ≡ chosen_of pairs.now node }
{
    for pair in pairs {
        if pair.leaf == node {
            return pair.value;
        }
    }
    node
}

/// A pair of the list.
fn pair_at(pairs: &[Instead], index: usize) -> Instead
    requires { index < length pairs.now }
    ensures { slice_get pairs.now index ≡ Some result }
{
    pairs[index]
}

/// Whether it is known at once that none of the names stands in the node.
fn holds_none(table: &Table, pairs: &[Instead], node: usize) -> bool
    requires inside { node < length (nodes table.now) }
    requires ready { AreReady table.now pairs.now }
    ensures { result ≡ true → value_passes (the_value (slice_get (nodes table.now) node)) (λ y s. none_of (pairs_in table.now pairs.now) y) ≡ true }
{
    if pairs.is_empty() {
        return false;
    }
    for index in 0..pairs.len() {
        let pair = pair_at(pairs, index);
        if table.may_hold(node, pair.name) {
            return false;
        }
    }
    true
}

/// The node of a formula with values for several names, all at once: a value is not looked at again, and of
/// two pairs of one name and sort the first counts. No value has a loose bound variable. A name that stands
/// at another sort than its value's stays there. Parts that hold none of the names are left alone. The
/// answer is want of memory where the formula nests deeper than MOST_LEVELS.
pub fn subst_several(
    table: &mut Table,
    formula: usize,
    pairs: &[Instead],
) -> Result<usize, NoMemory>
    requires formula { is_truth (slice_get (nodes table.old) formula) ≡ true }
    requires ready { AreReady table.old pairs.now }
    requires closed { all_closed (pairs_in table.old pairs.now) ≡ true }
    ensures tree { IfOk result (λ made. slice_get (nodes table.new) made ≡ Some (of_truth (mapped_formula (the_truth (slice_get (nodes table.old) formula)) (instead (pairs_in table.old pairs.now)) 0))) }
    ensures meaning { IfOk result (λ made. (m : Interp) (env : List ℕ) → truth (the_truth (slice_get (nodes table.new) made)) m env ≡ truth (the_truth (slice_get (nodes table.old) formula)) (all_assigned m (pairs_in table.old pairs.now)) env) }
    ensures shallow { IfOk result (λ made. value_depth (the_value (slice_get (nodes table.old) formula)) ≤ 10001) }
    ensures grows { Extends table.old table.new }
{
    walked(table, &Several { pairs }, formula, 0)
}
