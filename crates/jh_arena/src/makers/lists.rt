ghost use Rattle.std.specs.Prelude.{◌≡◌, true, IfOk, Some, slice_get};
ghost use Rattle.jh_form.specs.Tree.{of_truth};
ghost use Rattle.jh_form.specs.Tree as t;
ghost use Rattle.jh_arena.specs.table.Entries.{is_truth, the_truth};
ghost use Rattle.jh_arena.specs.table.Growth.{Extends};
ghost use Rattle.jh_arena.specs.table.Nodes.{nodes};
ghost use Rattle.jh_arena.specs.makers.Joined.{joined, are_truths, truths_at};

use crate::makers::formulas::{conjunction, implication, truth};
use crate::table::Table;
use jh_boxed::jh_name::NoMemory;

/// The node of these formulas joined by And to the right, and of the formula that is true where there are
/// none. A list of one is that formula.
pub fn conjunction_of(table: &mut Table, items: &[usize]) -> Result<usize, NoMemory>
    requires { are_truths (nodes table.old) items.now ≡ true }
    ensures node { IfOk result (λ made. slice_get (nodes table.new) made ≡ Some (of_truth (joined (truths_at (nodes table.old) items.now)))) }
    ensures grows { Extends table.old table.new }
{
    if items.is_empty() {
        return truth(table);
    }
    let mut index = items.len() - 1;
    let mut made = items[index];
    while index > 0 {
        index -= 1;
        made = conjunction(table, items[index], made)?;
    }
    Ok(made)
}

/// The node of the formula that these hypotheses, joined by And to the right, imply the goal.
pub fn implication_of(
    table: &mut Table,
    hypotheses: &[usize],
    goal: usize,
) -> Result<usize, NoMemory>
    requires hypotheses { are_truths (nodes table.old) hypotheses.now ≡ true }
    requires goal { is_truth (slice_get (nodes table.old) goal) ≡ true }
    ensures node { IfOk result (λ made. slice_get (nodes table.new) made ≡ Some (of_truth (t.implies (joined (truths_at (nodes table.old) hypotheses.now)) (the_truth (slice_get (nodes table.old) goal))))) }
    ensures grows { Extends table.old table.new }
{
    let premise = conjunction_of(table, hypotheses)?;
    implication(table, premise, goal)
}
