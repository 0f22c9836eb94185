ghost use Rattle.std.specs.Prelude.{◌≡◌, ◌||◌, true, IfOk, Some, slice_get};
ghost use Rattle.jh_form.specs.Tree.{of_truth};
ghost use Rattle.jh_form.specs.Tree as t;
ghost use Rattle.jh_arena.specs.table.Entries.{is_truth, the_truth};
ghost use Rattle.jh_arena.specs.table.Growth.{Extends};
ghost use Rattle.jh_arena.specs.table.Nodes.{nodes};
ghost use Rattle.jh_fca.specs.cutting.Cut.{holds_foreign, two_ways, opening_iffs, iffs_opened};

use crate::cutting::asking::holds_foreign;
use jh_arena::makers::{conjunction, equivalence, implication};
use jh_arena::table::{Shape, Table};
use jh_name::NoMemory;
use jh_normal_forms::rebuilding::{BuildRules, Polarity, rebuild};

/// The rule that opens equivalences.
#[derive(Clone, Copy)]
struct OpeningIffs;

/// Two implications.
fn both_ways(table: &mut Table, a: usize, b: usize) -> Result<usize, NoMemory>
    requires a { is_truth (slice_get (nodes table.old) a) ≡ true }
    requires b { is_truth (slice_get (nodes table.old) b) ≡ true }
    ensures node { IfOk result (λ made. slice_get (nodes table.new) made ≡ Some (of_truth (t.and (t.implies (the_truth (slice_get (nodes table.old) a)) (the_truth (slice_get (nodes table.old) b))) (t.implies (the_truth (slice_get (nodes table.old) b)) (the_truth (slice_get (nodes table.old) a)))))) }
    ensures grows { Extends table.old table.new }
{
    let there = implication(table, a, b)?;
    let back = implication(table, b, a)?;
    conjunction(table, there, back)
}

/// Whether one of two tests passed.
fn either(left: bool, right: bool) -> bool
    ensures { result ≡ (left || right) }
{
    left || right
}

/// Whether one of two formulas has a part without local form.
fn either_holds(table: &Table, a: usize, b: usize) -> Result<bool, NoMemory>
    requires a { is_truth (slice_get (nodes table.now) a) ≡ true }
    requires b { is_truth (slice_get (nodes table.now) b) ≡ true }
    ensures { IfOk result (λ holds. holds ≡ (holds_foreign (the_truth (slice_get (nodes table.now) a)) || holds_foreign (the_truth (slice_get (nodes table.now) b)))) }
{
    let left = holds_foreign(table, a)?;
    let right = holds_foreign(table, b)?;
    Ok(either(left, right))
}

/// An equivalence, or the two implications that it is.
fn opened(table: &mut Table, a: usize, b: usize) -> Result<usize, NoMemory>
    requires a { is_truth (slice_get (nodes table.old) a) ≡ true }
    requires b { is_truth (slice_get (nodes table.old) b) ≡ true }
    ensures node { IfOk result (λ made. slice_get (nodes table.new) made ≡ Some (of_truth (two_ways (t.iff (the_truth (slice_get (nodes table.old) a)) (the_truth (slice_get (nodes table.old) b)))))) }
    ensures grows { Extends table.old table.new }
{
    let foreign = either_holds(table, a, b)?;
    if foreign {
        both_ways(table, a, b)
    } else {
        equivalence(table, a, b)
    }
}

impl BuildRules for OpeningIffs {
    ghost rule = { λ rules. opening_iffs };

    fn made(
        &self,
        table: &mut Table,
        shape: Shape,
        _polarity: Polarity,
    ) -> Result<usize, NoMemory> {
        match shape {
            Shape::Iff(a, b) => opened(table, a, b),
            _ => table.make(shape),
        }
    }
}

/// The node of a formula in which each equivalence round what has no local form is two implications.
pub(crate) fn iffs_opened(table: &mut Table, formula: usize) -> Result<usize, NoMemory>
    requires formula { is_truth (slice_get (nodes table.old) formula) ≡ true }
    ensures tree { IfOk result (λ made. slice_get (nodes table.new) made ≡ Some (of_truth (iffs_opened (the_truth (slice_get (nodes table.old) formula))))) }
    ensures grows { Extends table.old table.new }
{
    rebuild(table, &OpeningIffs, formula, Polarity::Both)
}
