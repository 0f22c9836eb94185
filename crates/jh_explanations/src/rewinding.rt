ghost use Rattle.std.specs.Prelude.{◌≡◌, ◌<◌, ◌≤◌, ℕ, Some, false, length, slice_get, take};
ghost use Rattle.jh_explanations.specs.declared.step.Step.{Step};
ghost use Rattle.jh_explanations.specs.Keeping.{IsQuiet, IsReady};
ghost use Rattle.jh_explanations.specs.Steps.{literals_of};

use crate::Step;
use crate::step::{is_one, step_at};
use jh_cong::classes::Classes;
use jh_propagation::propagation::Problem;
use jh_propagation::trail::{Decided, Trail};

/// How many steps stand before a literal: all, where it isn't among them.
pub(crate) fn steps_before(steps: &[Step], out: Decided) -> usize
    ensures inside { result ≤ length steps.now }
    ensures before { (n : ℕ) (s : Step) → n < result → slice_get steps.now n ≡ Some s → s.literal ≡ out → ⊥ }
{
    for index in 0..steps.len() {
        if is_one(step_at(steps, index).literal, out) {
            return index;
        }
    }
    steps.len()
}

/// The lesser of two numbers.
fn least(left: usize, right: usize) -> usize
    ensures left { result ≤ left }
    ensures right { result ≤ right }
{
    if left < right { left } else { right }
}

/// Whether two literals are two.
fn differ(left: Decided, right: Decided) -> bool
    ensures { result ≡ false → left ≡ right }
{
    if is_one(left, right) {
        return false;
    }
    true
}

/// How many of the first literals of a trail, up to so many, are those of the first steps.
fn shared(trail: &Trail, steps: &[Step], most: usize) -> usize
    requires trail { most ≤ length trail.now }
    requires steps { most ≤ length steps.now }
    ensures few { result ≤ most }
    ensures same { take result trail.now ≡ literals_of (take result steps.now) }
{
    for index in 0..most {
        if differ(trail.literal(index), step_at(steps, index).literal) {
            return index;
        }
    }
    most
}

/// Takes the classes and the trail back to the first literals, up to so many, that they share with steps. The answer is how many these
/// are.
pub(crate) fn rewind(
    problem: &Problem,
    classes: &mut Classes,
    trail: &mut Trail,
    steps: &[Step],
    most: usize,
) -> usize
    requires ready { IsReady problem.now classes.old trail.old }
    requires inside { most ≤ length steps.now }
    ensures few { result ≤ most }
    ensures trail { trail.new ≡ literals_of (take result steps.now) }
    ensures quiet { IsQuiet problem.now classes.new trail.new }
    ensures table { classes.new.table ≡ classes.old.table }
{
    let _problem = problem;
    let told = least(classes.len(), trail.len());
    let count = shared(trail, steps, least(most, told));
    classes.undo(count);
    trail.truncate(count);
    count
}
