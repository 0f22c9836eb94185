ghost use Rattle.std.specs.Prelude.{◌≡◌, ◌<◌, true, false, map, List, IfOk, Some, length, slice_get};
ghost use Rattle.jh_form.specs.Tree.{FormulaTree, ValueTree, of_truth};
ghost use Rattle.jh_arena.specs.table.Entries.{is_truth};
ghost use Rattle.jh_arena.specs.table.Growth.{Extends};
ghost use Rattle.jh_arena.specs.table.Nodes.{nodes};
ghost use Rattle.jh_normal_forms.specs.declared.rebuilding.polarity.Polarity.TheVariants as pol;
ghost use Rattle.jh_reach.specs.Standing.{AreFormulas};
ghost use Rattle.jh_normal_forms.specs.idle_updates.Dropped.{dropped};
ghost use Rattle.jh_normal_forms.specs.set_opening.SetsOpened.{sets_opened};
ghost use Rattle.jh_fca.specs.cutting.Cut.{cut};
ghost use Rattle.jh_fca.specs.cutting.Leaves.{sign};
ghost use Rattle.jh_fca.specs.local_form.Named.{named};
ghost use Rattle.jh_local_form.specs.updates.Updating.{IsNaming};

use crate::updates::{Naming, named};
use jh_arena::table::Table;
use jh_fca::cutting::cut;
use jh_name::NoMemory;
use jh_normal_forms::idle_updates::dropped;
use jh_normal_forms::set_opening::sets_opened;

/// The node at a place.
pub(crate) fn node_at(row: &[usize], place: usize) -> usize
    requires { place < length row.now }
    ensures { slice_get row.now place ≡ Some result }
{
    row[place]
}

/// The nodes of formulas without the updates that change nothing.
pub(crate) fn all_dropped(table: &mut Table, formulas: &[usize]) -> Result<Vec<usize>, NoMemory>
    requires formulas { (facts : List FormulaTree) × AreFormulas table.old formulas.now facts }
    ensures all { IfOk result (λ made. (facts : List FormulaTree) → AreFormulas table.old formulas.now facts → AreFormulas table.new made.items (map dropped facts)) }
    ensures grows { Extends table.old table.new }
{
    let mut made = Vec::new(table.alloc());
    for place in 0..formulas.len() {
        let node = dropped(table, node_at(formulas, place))?;
        made.push(node)?;
    }
    Ok(made)
}

/// The nodes of formulas in which updates have their names.
pub(crate) fn all_named(
    table: &mut Table,
    names: &Naming,
    formulas: &[usize],
) -> Result<Vec<usize>, NoMemory>
    requires names { (us : List ValueTree) × IsNaming table.old names.now us }
    requires formulas { (facts : List FormulaTree) × AreFormulas table.old formulas.now facts }
    ensures all { IfOk result (λ made. (us : List ValueTree) (facts : List FormulaTree) → IsNaming table.old names.now us → AreFormulas table.old formulas.now facts → AreFormulas table.new made.items (map (named us names.now.first) facts)) }
    ensures grows { Extends table.old table.new }
{
    let mut made = Vec::new(table.alloc());
    for place in 0..formulas.len() {
        let node = named(table, names, node_at(formulas, place))?;
        made.push(node)?;
    }
    Ok(made)
}

/// The node of what is left of a formula, with its sets opened, as a goal or as a hypothesis.
pub(crate) fn cut_one(table: &mut Table, formula: usize, positive: bool) -> Result<usize, NoMemory>
    requires formula { is_truth (slice_get (nodes table.old) formula) ≡ true }
    ensures node { IfOk result (λ made. (a : FormulaTree) → slice_get (nodes table.old) formula ≡ Some (of_truth a) → slice_get (nodes table.new) made ≡ Some (of_truth (cut (sets_opened a) (sign positive)))) }
    ensures grows { Extends table.old table.new }
{
    let opened = sets_opened(table, formula)?;
    cut(table, opened, positive)
}

/// The nodes of what is left of facts, with their sets opened.
pub(crate) fn all_cut(table: &mut Table, facts: &[usize]) -> Result<Vec<usize>, NoMemory>
    requires facts { (all : List FormulaTree) × AreFormulas table.old facts.now all }
    ensures all { IfOk result (λ made. (all : List FormulaTree) → AreFormulas table.old facts.now all → AreFormulas table.new made.items (map (λ a. cut (sets_opened a) pol.Negative) all)) }
    ensures grows { Extends table.old table.new }
{
    let mut made = Vec::new(table.alloc());
    for place in 0..facts.len() {
        let node = cut_one(table, node_at(facts, place), false)?;
        made.push(node)?;
    }
    Ok(made)
}
