#![tactic(auto, unfolding(jh_derivation_rules::specs::Steps::step_tree, jh_boxed::specs::Sizes::value_depth))]

ghost use Rattle.std.specs.Prelude.{◌≡◌, ◌<◌, ◌∷◌, [], length, map, IsTrue, Some, slice_get};
ghost use Rattle.jh_derivation_rules.specs.Steps.{step_tree, steps_of};
ghost use Rattle.jh_instance_proofs.specs.derivations.Nesting.{NestWithin, OperandsNestWithin, operands_of};

use jh_boxed::Walk;
use jh_derivation_rules::{DerivStep, Derivation};
use jh_proof_builder::MOST_NESTED;

/// Whether an operand nests at most MOST_NESTED levels deep.
fn is_low<T: Walk>(operand: &T) -> bool
    ensures { IsTrue result → NestWithin 4096 (T.tree operand.now ∷ []) }
{
    operand.depth() <= MOST_NESTED
}

/// Whether two operands do.
fn are_low<T: Walk, U: Walk>(first: &T, second: &U) -> bool
    ensures { IsTrue result → NestWithin 4096 (T.tree first.now ∷ U.tree second.now ∷ []) }
{
    is_low(first) && is_low(second)
}

/// Whether three operands do.
fn all_low<T: Walk, U: Walk, V: Walk>(first: &T, second: &U, third: &V) -> bool
    ensures { IsTrue result → NestWithin 4096 (T.tree first.now ∷ U.tree second.now ∷ V.tree third.now ∷ []) }
{
    is_low(first) && are_low(second, third)
}

/// Whether no operand of a step nests deeper than MOST_NESTED. A step by an axiom isn't written, and counts as one that does.
fn is_shallow(step: &DerivStep) -> bool
    ensures { IsTrue result → NestWithin 4096 (operands_of (step_tree step.now)) }
{
    match step {
        DerivStep::Absurd => true,
        DerivStep::Pair(fact) => is_low(fact),
        DerivStep::Reflexive(fact) => is_low(fact),
        DerivStep::Symmetric(left, right) => are_low(left, right),
        DerivStep::Transitive(first, second, third) => all_low(first, second, third),
        DerivStep::Read(_, field, left, right) => all_low(field, left, right),
        DerivStep::Replace(fact, made, old, new) => are_low(fact, made) && are_low(old, new),
        DerivStep::And(fact) => is_low(fact),
        DerivStep::Or(fact) => is_low(fact),
        DerivStep::Implies(fact) => is_low(fact),
        DerivStep::Iff(fact) => is_low(fact),
        DerivStep::Not(fact) => is_low(fact),
        DerivStep::All(fact, term) => are_low(fact, term),
        DerivStep::Exists(fact, _) => is_low(fact),
        DerivStep::Cut(fact) => is_low(fact),
        DerivStep::Update(field) => is_low(field),
        DerivStep::Axiom(_, _, _) => false,
        DerivStep::Open(fact) => is_low(fact),
    }
}

/// The step at a place.
fn step_at(steps: &[DerivStep], place: usize) -> &DerivStep
    requires { place < length steps.now }
    ensures { slice_get steps.now place ≡ Some result.now }
{
    &steps[place]
}

/// Whether no operand of these steps nests deeper than MOST_NESTED.
fn are_shallow(steps: &[DerivStep]) -> bool
    ensures { IsTrue result → OperandsNestWithin 4096 (map step_tree steps.now) }
{
    for place in 0..steps.len() {
        if !is_shallow(step_at(steps, place)) {
            return false;
        }
    }
    true
}

/// Whether no operand of a derivation nests deeper than MOST_NESTED.
pub(crate) fn nests_within(derivation: &Derivation) -> bool
    ensures { IsTrue result → OperandsNestWithin 4096 (steps_of derivation.now) }
{
    are_shallow(derivation.steps.items())
}
