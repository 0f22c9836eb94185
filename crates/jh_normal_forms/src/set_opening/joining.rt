#![tactic(auto, using(jh_arena::proofs::table::Listed::growth_steps))]

ghost use Rattle.std.specs.Prelude.{◌≡◌, true, IfOk, Some, slice_get};
ghost use Rattle.jh_form.specs.Tree.{of_truth};
ghost use Rattle.jh_arena.specs.table.Entries.{is_truth, the_truth};
ghost use Rattle.jh_arena.specs.table.Growth.{Extends};
ghost use Rattle.jh_arena.specs.table.Nodes.{nodes};
ghost use Rattle.jh_normal_forms.specs.set_opening.Joining.{joined};

use jh_arena::makers::{conjunction, disjunction, equivalence, implication, negation};
use jh_arena::table::Table;
use jh_name::NoMemory;

/// How what two sets say of an object is joined.
#[derive(Clone, Copy, PartialEq, Eq)]
pub enum Join {
    Or,
    And,
    AndNot,
    Iff,
    Implies,
}

/// One formula and not the other.
fn and_not(table: &mut Table, a: usize, b: usize) -> Result<usize, NoMemory>
    requires a { is_truth (slice_get (nodes table.old) a) ≡ true }
    requires b { is_truth (slice_get (nodes table.old) b) ≡ true }
    ensures node { IfOk result (λ made. slice_get (nodes table.new) made ≡ Some (of_truth (joined Join.AndNot (the_truth (slice_get (nodes table.old) a)) (the_truth (slice_get (nodes table.old) b))))) }
    ensures grows { Extends table.old table.new }
{
    let negated = negation(table, b)?;
    conjunction(table, a, negated)
}

/// Two formulas joined.
pub(crate) fn join_two(table: &mut Table, how: Join, a: usize, b: usize) -> Result<usize, NoMemory>
    requires a { is_truth (slice_get (nodes table.old) a) ≡ true }
    requires b { is_truth (slice_get (nodes table.old) b) ≡ true }
    ensures node { IfOk result (λ made. slice_get (nodes table.new) made ≡ Some (of_truth (joined how (the_truth (slice_get (nodes table.old) a)) (the_truth (slice_get (nodes table.old) b))))) }
    ensures grows { Extends table.old table.new }
{
    match how {
        Join::Or => disjunction(table, a, b),
        Join::And => conjunction(table, a, b),
        Join::AndNot => and_not(table, a, b),
        Join::Iff => equivalence(table, a, b),
        Join::Implies => implication(table, a, b),
    }
}
