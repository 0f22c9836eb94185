#![tactic(auto, using(jh_arena::proofs::table::Listed::growth_steps))]

ghost use Rattle.std.specs.Prelude.{◌≡◌, true, IfOk, Some, is_some, slice_get};
ghost use Rattle.jh_form.specs.Tree.{of_truth};
ghost use Rattle.jh_arena.specs.table.Entries.{is_truth, the_truth, the_mark};
ghost use Rattle.jh_arena.specs.table.Growth.{Extends};
ghost use Rattle.jh_arena.specs.table.Nodes.{nodes};
ghost use Rattle.jh_fca.specs.cutting.Cut.{all_of, ex_of, mark_of};

use crate::cutting::folding::constant;
use jh_arena::makers::{for_all, for_some};
use jh_arena::table::{Shape, Table};
use jh_name::NoMemory;

/// What is said of all objects; True and False say the same of none.
pub(crate) fn all_of(table: &mut Table, a: usize) -> Result<usize, NoMemory>
    requires a { is_truth (slice_get (nodes table.old) a) ≡ true }
    ensures node { IfOk result (λ made. slice_get (nodes table.new) made ≡ Some (of_truth (all_of (the_truth (slice_get (nodes table.old) a))))) }
    ensures grows { Extends table.old table.new }
{
    match constant(table, a) {
        Some(_) => Ok(a),
        None => for_all(table, a),
    }
}

/// What is said of some object; True and False say the same of none.
pub(crate) fn ex_of(table: &mut Table, a: usize) -> Result<usize, NoMemory>
    requires a { is_truth (slice_get (nodes table.old) a) ≡ true }
    ensures node { IfOk result (λ made. slice_get (nodes table.new) made ≡ Some (of_truth (ex_of (the_truth (slice_get (nodes table.old) a))))) }
    ensures grows { Extends table.old table.new }
{
    match constant(table, a) {
        Some(_) => Ok(a),
        None => for_some(table, a),
    }
}

/// A label over a formula that is neither True nor False.
pub(crate) fn mark_of(table: &mut Table, label: usize, a: usize) -> Result<usize, NoMemory>
    requires label { is_some (slice_get table.old.pools.marks label) ≡ true }
    requires a { is_truth (slice_get (nodes table.old) a) ≡ true }
    ensures node { IfOk result (λ made. slice_get (nodes table.new) made ≡ Some (of_truth (mark_of (the_mark (slice_get table.old.pools.marks label)) (the_truth (slice_get (nodes table.old) a))))) }
    ensures grows { Extends table.old table.new }
{
    match constant(table, a) {
        Some(_) => Ok(a),
        None => table.make(Shape::Mark(label, a)),
    }
}
