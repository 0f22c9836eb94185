ghost use Rattle.std.specs.Prelude.{◌≡◌, ◌<◌, List, IfOk, Some, length, slice_get};
ghost use Rattle.std.specs.List.{filter};
ghost use Rattle.jh_form.specs.Tree.{FormulaTree};
ghost use Rattle.jh_arena.specs.table.Nodes.{nodes};
ghost use Rattle.jh_reach.specs.Standing.{AreFormulas};
ghost use Rattle.jh_approx.specs.definition.Names.{without_repeats};
ghost use Rattle.jh_fca.specs.local_form.Named.{all_parts, updates};
ghost use Rattle.jh_local_form.specs.updates.Updating.{AreValues, AreUpdates};

use crate::updates::asking::WholeUpdates;
use jh_arena::table::Table;
use jh_name::NoMemory;
use jh_normal_forms::parts::{NodeList, Order, PartTest};

/// The node at a place.
pub(crate) fn node_at(row: &[usize], place: usize) -> usize
    requires { place < length row.now }
    ensures { slice_get row.now place ≡ Some result }
{
    row[place]
}

/// The nodes of the parts of formulas for which a test asks, each once, in the order in which they first stand, inner ones before
/// those that hold them. The time is in proportion to the parts of each formula, each counted once. The answer is want of memory
/// where a formula nests deeper than MOST_LEVELS.
pub fn parts_of<T: PartTest>(
    table: &Table,
    test: &T,
    formulas: &[usize],
) -> Result<NodeList, NoMemory>
    requires formulas { (facts : List FormulaTree) × AreFormulas table.now formulas.now facts }
    ensures parts { IfOk result (λ made. (facts : List FormulaTree) → AreFormulas table.now formulas.now facts → AreValues (nodes table.now) made (without_repeats (filter (T.test test.now) (all_parts facts)))) }
{
    table.nodes_differ();
    let mut list = NodeList::new(table.alloc());
    for place in 0..formulas.len() {
        let formula = node_at(formulas, place);
        list.add_parts(table, test, Order::InnerFirst, formula)?;
    }
    Ok(list)
}

/// The nodes of the updates of formulas that hold no variable bound outside them, each once, in the order in which they first
/// stand, an inner one before those that hold it. The answer is want of memory where a formula nests deeper than MOST_LEVELS.
pub fn updates(table: &Table, formulas: &[usize]) -> Result<NodeList, NoMemory>
    requires formulas { (facts : List FormulaTree) × AreFormulas table.now formulas.now facts }
    ensures updates { IfOk result (λ made. (facts : List FormulaTree) → AreFormulas table.now formulas.now facts → AreUpdates (nodes table.now) made (updates facts)) }
{
    parts_of(table, &WholeUpdates, formulas)
}
