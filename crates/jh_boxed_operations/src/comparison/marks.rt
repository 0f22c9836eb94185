#![tactic(auto, using(jh_form::proofs::Steps::tree_steps, crate::proofs::comparison::MarkLemmas::mark_steps, crate::proofs::comparison::PastSteps::past_steps))]

ghost use Rattle.std.specs.Prelude.{◌≡◌, ◌↔◌, IsTrue};
ghost use Rattle.jh_form.specs.Bare.{formula_tree};
ghost use Rattle.jh_boxed_operations.specs.comparison.Marks.{mark_equal};
ghost use Rattle.jh_boxed_operations.specs.comparison.Compared.{past};

use jh_form::{Formula, Mark};

fn sources_match(left: &Mark, right: &Mark) -> bool
    ensures { IsTrue result ↔ ((left.now.kind ≡ right.now.kind) × (left.now.place ≡ right.now.place)) }
{
    left.kind == right.kind && left.place == right.place
}

fn names_match(left: &Mark, right: &Mark) -> bool
    ensures { IsTrue result ↔ ((left.now.name ≡ right.now.name) × (left.now.from ≡ right.now.from)) }
{
    left.name == right.name && left.from == right.from
}

/// Whether two labels are one.
pub fn marks_are_one(left: &Mark, right: &Mark) -> bool
    ensures { result ≡ mark_equal left.now right.now }
{
    sources_match(left, right) && names_match(left, right)
}

/// The formula under the labels that stand around it.
pub fn past_marks(formula: &Formula) -> &Formula
    ensures { formula_tree result.now ≡ past (formula_tree formula.now) }
{
    match formula {
        Formula::Mark(_, inner) => past_marks(inner),
        _ => formula,
    }
}
