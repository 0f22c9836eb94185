#![tactic(auto, using(jh_arena::proofs::table::Listed::growth_steps))]

ghost use Rattle.std.specs.Prelude.{◌≡◌, ℕ, List, map, IfOk};
ghost use Rattle.jh_form.specs.Tree.{FormulaTree, TermTree};
ghost use Rattle.jh_instantiation.specs.instance_count.Grouping.{AreFormulas};
ghost use Rattle.jh_arena.specs.table.Growth.{Extends};
ghost use Rattle.jh_query.specs.queries.Size.{capped};
ghost use Rattle.jh_inst.specs.instances.Count.{count_all};
ghost use Rattle.jh_inst.specs.instances.Rounds as spec;
ghost use Rattle.jh_instantiation.specs.instances.Progressing.{AreAtHand, IsProgress};

use crate::instance_count::count_from;
use crate::instances::beginning::begun;
use crate::instances::making::{AtHand, Progress, universal_at};
use jh_arena::table::Table;
use jh_name::NoMemory;

/// The formulas of universals at hand.
fn formulas_of(table: &Table, at_hand: &[AtHand]) -> Result<Vec<usize>, NoMemory>
    ensures { (ts : List TermTree) (hs : List spec.AtHand) → AreAtHand table.now ts at_hand.now hs → IfOk result (λ made. AreFormulas table.now made.items (map (λ (h : spec.AtHand). h.formula) hs)) }
{
    let mut formulas = Vec::new(table.alloc());
    for place in 0..at_hand.len() {
        formulas.push(universal_at(at_hand, place).node)?;
    }
    Ok(formulas)
}

/// How many instances there can be, of what was begun.
pub(crate) fn count_begun(
    table: &mut Table,
    progress: &Progress,
    turns: u32,
) -> Result<u128, NoMemory>
    requires there { (fs : List FormulaTree) × (k : ℕ) × IsProgress table.old progress.now (spec.begun fs k) }
    ensures count { (fs : List FormulaTree) (k : ℕ) → IsProgress table.old progress.now (spec.begun fs k) → IfOk result (λ made. made ≡ capped (count_all fs k turns)) }
    ensures grows { Extends table.old table.new }
{
    let formulas = formulas_of(table, progress.at_hand.as_slice())?;
    count_from(table, formulas.as_slice(), progress.terms.len(), turns)
}

/// How many instances facts can have in so many rounds and the last pass, found without making them: the greatest u128 where
/// that is passed. The facts are in negation normal form, and constants from `first` on are free. What the table held stays
/// in its place, after any answer. The answer is want of memory where a fact has more nodes than MOST_NODES, each counted
/// where it stands, or nests deeper than MOST_LEVELS of the table.
pub fn count(table: &mut Table, facts: &[usize], first: u32, rounds: u32) -> Result<u128, NoMemory>
    requires there { (fs : List FormulaTree) × AreFormulas table.old facts.now fs }
    ensures count { (fs : List FormulaTree) → AreFormulas table.old facts.now fs → IfOk result (λ made. made ≡ capped (count_all fs first rounds)) }
    ensures grows { Extends table.old table.new }
{
    let progress = begun(table, facts, first)?;
    count_begun(table, &progress, rounds)
}
