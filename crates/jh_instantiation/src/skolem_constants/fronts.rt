ghost use Rattle.std.specs.Prelude.{◌≡◌, true, IfOk, slice_get};
ghost use Rattle.jh_form.specs.Tree.{FormulaTree};
ghost use Rattle.jh_arena.specs.table.Entries.{is_truth};
ghost use Rattle.jh_arena.specs.table.Nodes.{nodes};
ghost use Rattle.jh_inst.specs.instances.Prenex as spec;
ghost use Rattle.jh_instantiation.specs.skolem_constants.Standing.{IsFormula};

use jh_arena::table::{Shape, Table};
use jh_name::NoMemory;

/// How many quantifiers `all` stand in front of a formula.
pub fn in_front(table: &Table, node: usize) -> Result<usize, NoMemory>
    requires there { is_truth (slice_get (nodes table.now) node) ≡ true }
    ensures { (a : FormulaTree) → IsFormula table.now node a → IfOk result (λ made. made ≡ spec.in_front a) }
{
    let mut at = node;
    for passed in 0..usize::MAX {
        match table.shape(at) {
            Shape::All(a) => at = a,
            _ => return Ok(passed),
        }
    }
    Err(NoMemory)
}
