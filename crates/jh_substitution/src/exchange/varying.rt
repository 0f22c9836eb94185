#![tactic(auto, using(jh_arena::proofs::table::Listed::growth_steps))]

ghost use Rattle.std.specs.Prelude.{◌≡◌, ◌∷◌, ℕ, List, true, IfOk, Some, slice_get};
ghost use Rattle.jh_form.specs.Tree.{of_truth};
ghost use Rattle.jh_form.specs.Meaning.{Interp, InUniverse, term_value, truth};
ghost use Rattle.jh_boxed_operations.specs.comparison.Inside.{AreInside};
ghost use Rattle.jh_arena.specs.table.Entries.{is_object, is_truth, the_object, the_truth};
ghost use Rattle.jh_arena.specs.table.Growth.{Extends};
ghost use Rattle.jh_arena.specs.table.Nodes.{nodes};
ghost use Rattle.jh_substitution.specs.exchange.Under.{varied};

use crate::exchange::exchanging::exchange_under;
use crate::exchange::laws::varied_keeps_meaning;
use crate::simultaneous::lift;
use jh_arena::table::{Shape, Table};
use jh_name::NoMemory;

/// The node of a formula under one more binder, whose variable stands for each occurrence of a term. The term may have loose
/// bound variables, those round the formula. Where the variable is the object of the term, the formula means what it did. The
/// answer is want of memory as for `exchange_under`.
pub fn vary(table: &mut Table, formula: usize, term: usize) -> Result<usize, NoMemory>
    requires formula { is_truth (slice_get (nodes table.old) formula) ≡ true }
    requires term { is_object (slice_get (nodes table.old) term) ≡ true }
    ensures tree { IfOk result (λ made. slice_get (nodes table.new) made ≡ Some (of_truth (varied (the_truth (slice_get (nodes table.old) formula)) (the_object (slice_get (nodes table.old) term))))) }
    ensures meaning { IfOk result (λ made. (m : Interp) (e : List ℕ) → InUniverse m → AreInside m.last e → truth (the_truth (slice_get (nodes table.new) made)) m (term_value (the_object (slice_get (nodes table.old) term)) m e ∷ e) ≡ truth (the_truth (slice_get (nodes table.old) formula)) m e) }
    ensures grows { Extends table.old table.new }
{
    varied_keeps_meaning();
    let risen = lift(table, formula, 1)?;
    let old = lift(table, term, 1)?;
    let variable = table.make(Shape::Bound(0))?;
    exchange_under(table, risen, old, variable)
}
