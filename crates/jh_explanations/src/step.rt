ghost use Rattle.std.specs.Prelude.{◌≡◌, ◌↔◌, ◌<◌, IsTrue, Some, length, slice_get};
ghost use Rattle.jh_closure.specs.congruence_closure.Nodes.{Has};
ghost use Rattle.jh_explanations.specs.Steps.{literals_of};

use jh_propagation::trail::Decided;

/// A literal of an explanation, and whether it was decided.
#[derive(Clone, Copy, PartialEq, Eq)]
pub struct Step {
    pub literal: Decided,
    pub is_decision: bool,
}

/// Whether two literals are one.
pub fn is_one(left: Decided, right: Decided) -> bool
    ensures { IsTrue result ↔ (left ≡ right) }
{
    left.atom == right.atom && left.holds == right.holds
}

/// Whether a literal stands in a list.
pub fn has(list: &[Decided], literal: Decided) -> bool
    ensures { IsTrue result ↔ Has list.now literal }
{
    for item in list {
        if is_one(*item, literal) {
            return true;
        }
    }
    false
}

/// Whether a literal stands in an explanation.
pub(crate) fn holds(steps: &[Step], literal: Decided) -> bool
    ensures { IsTrue result ↔ Has (literals_of steps.now) literal }
{
    for step in steps {
        if is_one(step.literal, literal) {
            return true;
        }
    }
    false
}

/// The step at a place.
pub(crate) fn step_at(steps: &[Step], place: usize) -> Step
    requires { place < length steps.now }
    ensures { slice_get steps.now place ≡ Some result }
{
    steps[place]
}

/// The literal at a place.
pub(crate) fn literal_at(list: &[Decided], place: usize) -> Decided
    requires { place < length list.now }
    ensures { slice_get list.now place ≡ Some result }
{
    list[place]
}
