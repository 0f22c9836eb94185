#![tactic(auto, using(jh_arena::proofs::table::Listed::growth_steps))]

ghost use Rattle.std.specs.Prelude.{◌≡◌, ◌∷◌, List, true, IfOk, slice_get};
ghost use Rattle.jh_form.specs.Tree.{FormulaTree, TermTree};
ghost use Rattle.jh_form.specs.Closed.{is_closed_term};
ghost use Rattle.jh_arena.specs.table.Entries.{is_object, is_truth, the_object};
ghost use Rattle.jh_arena.specs.table.Growth.{Extends};
ghost use Rattle.jh_arena.specs.table.Nodes.{nodes};
ghost use Rattle.jh_inst.specs.instances.Rounds.{put_at};
ghost use Rattle.jh_instantiation.specs.skolem_constants.Standing.{IsFormula, IsTerm};

use jh_arena::table::{Shape, Table};
use jh_name::NoMemory;
use jh_substitution::opening::open;

/// The node of a universal with a term for its outermost variable: put at further terms it is what the universal is, put at
/// this one and then at those. A formula without a quantifier in front stays as it is.
pub fn put_one(table: &mut Table, node: usize, with: usize) -> Result<usize, NoMemory>
    requires there { is_truth (slice_get (nodes table.old) node) ≡ true }
    requires with { is_object (slice_get (nodes table.old) with) ≡ true }
    requires closed { is_closed_term (the_object (slice_get (nodes table.old) with)) 0 ≡ true }
    ensures put { (a : FormulaTree) (w : TermTree) → IsFormula table.old node a → IsTerm table.old with w → IfOk result (λ made. (b : FormulaTree) × IsFormula table.new made b × ((ws : List TermTree) → put_at a (w ∷ ws) ≡ put_at b ws)) }
    ensures grows { Extends table.old table.new }
{
    match table.shape(node) {
        Shape::All(a) => open(table, a, with),
        _ => Ok(node),
    }
}
