#![tactic(auto, using(jh_arena::proofs::table::Listed::growth_steps))]

ghost use Rattle.std.specs.Prelude.{◌≡◌, ◌<◌, ℕ, List, true, IfOk, Some, length, slice_get};
ghost use Rattle.jh_form.specs.Tree.{of_truth};
ghost use Rattle.jh_form.specs.Meaning.{Interp, InUniverse, truth, datum};
ghost use Rattle.jh_form.specs.Sorts.{tree_sort, same_sort};
ghost use Rattle.jh_boxed_operations.specs.comparison.Inside.{SameIn, AreInside};
ghost use Rattle.jh_arena.specs.table.Entries.{is_truth, the_value, the_truth};
ghost use Rattle.jh_arena.specs.table.Growth.{Extends};
ghost use Rattle.jh_arena.specs.table.Nodes.{nodes};
ghost use Rattle.jh_substitution.specs.exchange.Staying.{exchanging_under-stays};
ghost use Rattle.jh_substitution.specs.exchange.Under.{CanExchangeUnder, StandsAt, exchanging_under, exchanged_under};

use crate::rewriting::{LeafRules, walked};
use crate::simultaneous::lift;
use jh_arena::table::{Shape, Table};
use jh_name::{NoMemory, Sort};

/// The rules by which one node stands for another, wherever that one stands, with their loose bound variables raised by the
/// binders that were passed.
#[derive(Clone, Copy)]
struct ExchangingUnder {
    old: usize,
    new: usize,
}

/// Whether two sorts are one.
fn is_of_sort(sort: Sort, other: Sort) -> bool
    ensures { result ≡ same_sort sort other }
{
    match sort {
        Sort::Obj => Sort::Obj == other,
        Sort::Int => Sort::Int == other,
        Sort::Bool => Sort::Bool == other,
        Sort::Set => Sort::Set == other,
        Sort::Field => Sort::Field == other,
    }
}

/// The node that stands for a part under `depth` binders, where the part is the old one there, raised by them.
fn raised_at(
    table: &mut Table,
    rules: ExchangingUnder,
    node: usize,
    depth: u32,
) -> Result<Option<usize>, NoMemory>
    requires ready { CanExchangeUnder rules.old rules.new table.old }
    requires inside { node < length (nodes table.old) }
    ensures stands { IfOk result (StandsAt (the_value (slice_get (nodes table.new) rules.old)) (the_value (slice_get (nodes table.new) rules.new)) (nodes table.new) node depth) }
    ensures grows { Extends table.old table.new }
{
    let old = lift(table, rules.old, depth)?;
    table.nodes_differ();
    if node != old {
        return Ok(None);
    }
    let new = lift(table, rules.new, depth)?;
    Ok(Some(new))
}

/// The same, where a part of another sort isn't compared.
fn new_at(
    table: &mut Table,
    rules: ExchangingUnder,
    node: usize,
    depth: u32,
) -> Result<Option<usize>, NoMemory>
    requires ready { CanExchangeUnder rules.old rules.new table.old }
    requires inside { node < length (nodes table.old) }
    ensures stands { IfOk result (StandsAt (the_value (slice_get (nodes table.new) rules.old)) (the_value (slice_get (nodes table.new) rules.new)) (nodes table.new) node depth) }
    ensures grows { Extends table.old table.new }
{
    if is_of_sort(table.sort(node), table.sort(rules.old)) {
        raised_at(table, rules, node, depth)
    } else {
        Ok(None)
    }
}

impl LeafRules for ExchangingUnder {
    ghost rewriting = { λ rules t. exchanging_under (the_value (slice_get (nodes t) rules.old)) (the_value (slice_get (nodes t) rules.new)) };

    ghost ready = { λ rules t. CanExchangeUnder rules.old rules.new t };

    fn leaf(
        &self,
        table: &mut Table,
        node: usize,
        _shape: Shape,
        depth: u32,
    ) -> Result<usize, NoMemory> {
        match new_at(table, *self, node, depth)? {
            Some(new) => Ok(new),
            None => Ok(node),
        }
    }

    fn whole(
        &self,
        table: &mut Table,
        node: usize,
        _shape: Shape,
        depth: u32,
    ) -> Result<Option<usize>, NoMemory> {
        let new = new_at(table, *self, node, depth)?;
        Ok(new)
    }

    ghost stays = { λ rules. exchanging_under-stays rules.old rules.new };
}

/// The node of a formula in which each part that is the node `old` is exchanged for the node `new`, which is of the same sort.
/// Both may have loose bound variables, which are those round the formula: where a part stands under further binders of the
/// formula, the variables of the old and the new node rise by as many. Names in labels stay. The formula means what it did
/// under objects under which both have the same value, for sets the same members in the universe. The answer is want of memory
/// where a number leaves u32, and where one of the three nests deeper than MOST_LEVELS.
pub fn exchange_under(
    table: &mut Table,
    formula: usize,
    old: usize,
    new: usize,
) -> Result<usize, NoMemory>
    requires formula { is_truth (slice_get (nodes table.old) formula) ≡ true }
    requires old { old < length (nodes table.old) }
    requires new { new < length (nodes table.old) }
    requires sort { tree_sort (the_value (slice_get (nodes table.old) new)) ≡ tree_sort (the_value (slice_get (nodes table.old) old)) }
    ensures tree { IfOk result (λ made. slice_get (nodes table.new) made ≡ Some (of_truth (exchanged_under (the_truth (slice_get (nodes table.old) formula)) (the_value (slice_get (nodes table.old) old)) (the_value (slice_get (nodes table.old) new))))) }
    ensures meaning { IfOk result (λ made. (m : Interp) (e : List ℕ) → InUniverse m → AreInside m.last e → SameIn m.last (datum (the_value (slice_get (nodes table.old) old)) m e) (datum (the_value (slice_get (nodes table.old) new)) m e) → truth (the_truth (slice_get (nodes table.new) made)) m e ≡ truth (the_truth (slice_get (nodes table.old) formula)) m e) }
    ensures grows { Extends table.old table.new }
{
    walked(table, &ExchangingUnder { old, new }, formula, 0)
}
