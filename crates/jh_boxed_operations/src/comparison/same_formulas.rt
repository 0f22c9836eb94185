ghost use Rattle.std.specs.Prelude.{◌≡◌, ◌↔◌, IsTrue};
ghost use Rattle.jh_form.specs.Bare.{formula_tree};
ghost use Rattle.jh_boxed_operations.specs.comparison.Unmarked.{unmarked_formula};

use crate::comparison::comparing::related_formula;
use crate::comparison::exchange::Nothing;
use jh_form::Formula;

/// Whether two formulas are the same tree where the labels of all parts are taken off. It takes no
/// memory.
pub fn same(left: &Formula, right: &Formula) -> bool
    ensures { IsTrue result ↔ (unmarked_formula (formula_tree left.now) ≡ unmarked_formula (formula_tree right.now)) }
{
    related_formula(left, right, &Nothing { labels: false })
}
