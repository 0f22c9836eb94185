ghost use Rattle.std.specs.Prelude.{◌≡◌, ℕ, List, true, IfOk, Some, slice_get};
ghost use Rattle.jh_form.specs.Tree.{of_set, of_truth};
ghost use Rattle.jh_form.specs.Tree as t;
ghost use Rattle.jh_form.specs.Meaning.{Interp, truth};
ghost use Rattle.jh_arena.specs.table.Entries.{is_truth, the_truth};
ghost use Rattle.jh_arena.specs.table.Growth.{Extends};
ghost use Rattle.jh_arena.specs.table.Nodes.{nodes};
ghost use Rattle.jh_normal_forms.specs.set_opening.SetsOpened.{opening_sets, sets_opened};

use crate::rebuilding::{BuildRules, Polarity, rebuild};
use crate::set_opening::joining::Join;
use crate::set_opening::saying::{is_in, only, outside, said_of_each, where_said};
use jh_arena::makers::{comprehension, falsehood, truth};
use jh_arena::table::{Shape, Table};
use jh_name::NoMemory;

/// The rule that opens sets.
#[derive(Clone, Copy)]
struct OpeningSets;

/// The set of no object, as a comprehension.
fn none(table: &mut Table) -> Result<usize, NoMemory>
    ensures node { IfOk result (λ made. slice_get (nodes table.new) made ≡ Some (of_set (t.compr t.false_formula))) }
    ensures grows { Extends table.old table.new }
{
    let formula = falsehood(table)?;
    comprehension(table, formula)
}

/// The set of all objects, as a comprehension.
fn everything(table: &mut Table) -> Result<usize, NoMemory>
    ensures node { IfOk result (λ made. slice_get (nodes table.new) made ≡ Some (of_set (t.compr t.true_formula))) }
    ensures grows { Extends table.old table.new }
{
    let formula = truth(table)?;
    comprehension(table, formula)
}

impl BuildRules for OpeningSets {
    ghost rule = { λ rules. opening_sets };

    fn made(
        &self,
        table: &mut Table,
        shape: Shape,
        _polarity: Polarity,
    ) -> Result<usize, NoMemory> {
        match shape {
            Shape::Empty => none(table),
            Shape::Univ => everything(table),
            Shape::Single(a) => only(table, a),
            Shape::Union(a, b) => where_said(table, Join::Or, a, b),
            Shape::Inter(a, b) => where_said(table, Join::And, a, b),
            Shape::Diff(a, b) => where_said(table, Join::AndNot, a, b),
            Shape::Compl(a) => outside(table, a),
            Shape::EqSet(a, b) => said_of_each(table, Join::Iff, a, b),
            Shape::Subset(a, b) => said_of_each(table, Join::Implies, a, b),
            Shape::Member(a, b) => is_in(table, a, b),
            _ => table.make(shape),
        }
    }
}

/// The node of a formula with its sets opened: what it says of sets is said of each object, until a set is a name or a read.
/// It means what the formula means. What the table held stays in its place, after any answer. The time is in proportion to the
/// parts, each counted once, and to those that are raised or put in. The answer is want of memory where the tree nests deeper
/// than MOST_LEVELS, and where a number of a bound variable leaves u32.
pub fn sets_opened(table: &mut Table, formula: usize) -> Result<usize, NoMemory>
    requires formula { is_truth (slice_get (nodes table.old) formula) ≡ true }
    ensures tree { IfOk result (λ made. slice_get (nodes table.new) made ≡ Some (of_truth (sets_opened (the_truth (slice_get (nodes table.old) formula))))) }
    ensures meaning { IfOk result (λ made. (m : Interp) (e : List ℕ) → truth (the_truth (slice_get (nodes table.new) made)) m e ≡ truth (the_truth (slice_get (nodes table.old) formula)) m e) }
    ensures grows { Extends table.old table.new }
{
    rebuild(table, &OpeningSets, formula, Polarity::Both)
}
