ghost use Rattle.std.specs.Prelude.{◌≡◌, List, IfOk};
ghost use Rattle.jh_form.specs.Tree.{FormulaTree};
ghost use Rattle.jh_reach.specs.Standing.{AreFormulas};
ghost use Rattle.jh_fca.specs.local_form.Named.{first_turn};

use crate::updates::gathering::node_at;
use jh_arena::table::Table;
use jh_name::NoMemory;

/// A turn as a name has it; want of memory beyond u32.
fn small(turn: u64) -> Result<u32, NoMemory>
    ensures { IfOk result (λ made. made ≡ turn) }
{
    match u32::try_from(turn) {
        Ok(made) => Ok(made),
        Err(_) => Err(NoMemory),
    }
}

/// The greatest of the least turns beyond those of the names of each formula.
fn greatest(table: &Table, formulas: &[usize]) -> u64
    requires formulas { (facts : List FormulaTree) × AreFormulas table.now formulas.now facts }
    ensures { (facts : List FormulaTree) → AreFormulas table.now formulas.now facts → result ≡ first_turn facts }
{
    let mut first = 0;
    for place in 0..formulas.len() {
        let formula = node_at(formulas, place);
        first = table.next_turn(formula).max(first);
    }
    first
}

/// The first turn beyond those of all free names of formulas. It looks at each formula's node alone. The answer is want of memory
/// where it leaves u32.
pub fn first_turn(table: &Table, formulas: &[usize]) -> Result<u32, NoMemory>
    requires formulas { (facts : List FormulaTree) × AreFormulas table.now formulas.now facts }
    ensures turn { IfOk result (λ made. (facts : List FormulaTree) → AreFormulas table.now formulas.now facts → made ≡ first_turn facts) }
{
    let first = greatest(table, formulas);
    small(first)
}
