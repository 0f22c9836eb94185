ghost use Rattle.std.specs.Prelude.{◌≡◌, ◌↔◌, ◌<◌, ◌+◌, ◌++◌, [], ◌∷◌, ℕ, List, IfOk, IsTrue, OnOk, Some, length, slice_get};
ghost use Rattle.jh_closure.specs.congruence_closure.Nodes.{Has};
ghost use Rattle.jh_arena.specs.table.Nodes.{nodes};
ghost use Rattle.jh_models.specs.ground_models.Explanations.{ClosesBranch};
ghost use Rattle.jh_propagation.specs.trail.Saying.{literals_at};
ghost use Rattle.jh_propagation.specs.propagation.Branches.{IsBranch};
ghost use Rattle.jh_propagation.specs.propagation.Closings.{IsCause};
ghost use Rattle.jh_propagation.specs.propagation.Problems.{instances_in};
ghost use Rattle.jh_explanations.specs.Keeping.{AreRight};
ghost use Rattle.jh_explanations.specs.Marks.{AreExplained, AreGathered};
ghost use Rattle.jh_explanations.specs.Resting.{AreDecided, IsHistory};
ghost use Rattle.jh_explanations.specs.Steps.{trees_of};

use crate::Step;
use crate::marking::{is_marked, marks_of};
use crate::step::has;
use jh_models::shortening::most_is_kept;
use jh_name::NoMemory;
use jh_propagation::propagation::{Branch, Cause, Problem};

/// The marks of the literals that explain why a branch is closed. The classes forget what they were told.
fn marked(problem: &Problem, branch: &mut Branch, cause: &Cause) -> Result<Vec<bool>, NoMemory>
    requires branch { (busy : List ℕ) × IsBranch problem.now busy branch.old }
    requires cause { IsCause (nodes problem.now.table) problem.now branch.old.trail cause.now }
    ensures explained { IfOk result (λ marks. AreExplained (nodes problem.now.table) problem.now branch.old.trail branch.old.reasons.items marks.items 0) }
    ensures table { branch.new.classes.table ≡ branch.old.classes.table }
    ensures trail { branch.new.trail ≡ branch.old.trail }
    ensures reasons { branch.new.reasons.items ≡ branch.old.reasons.items }
    ensures decisions { branch.new.decisions.items ≡ branch.old.decisions.items }
{
    marks_of(
        problem,
        &mut branch.classes,
        &branch.trail,
        branch.reasons.as_slice(),
        cause,
    )
}

/// The step of the literal at a place.
fn step_of(branch: &Branch, place: usize) -> Step
    requires { place < length branch.now.trail }
    ensures literal { slice_get branch.now.trail place ≡ Some result.literal }
    ensures marked { IsTrue result.is_decision ↔ Has branch.now.decisions.items result.literal }
{
    let literal = branch.trail.literal(place);
    Step {
        literal,
        is_decision: has(branch.decisions.as_slice(), literal),
    }
}

/// Adds a step.
fn add(steps: &mut Vec<Step>, step: Step) -> Result<(), NoMemory>
    ensures { OnOk result (steps.new.items ≡ steps.old.items ++ step ∷ []) }
{
    steps.push(step)?;
    Ok(())
}

/// Adds the literal at a place to the steps, where it is marked.
fn add_marked(
    problem: &Problem,
    branch: &Branch,
    marks: &[bool],
    place: usize,
    steps: &mut Vec<Step>,
) -> Result<(), NoMemory>
    requires history { IsHistory (nodes problem.now.table) problem.now branch.now.trail branch.now.reasons.items }
    requires decided { AreDecided branch.now.decisions.items branch.now.trail branch.now.reasons.items }
    requires explained { AreExplained (nodes problem.now.table) problem.now branch.now.trail branch.now.reasons.items marks.now 0 }
    requires inside { place < length branch.now.trail }
    requires gathered { AreGathered (nodes problem.now.table) problem.now branch.now.decisions.items branch.now.trail marks.now place steps.old.items }
    ensures { OnOk result (AreGathered (nodes problem.now.table) problem.now branch.now.decisions.items branch.now.trail marks.now (place + 1) steps.new.items) }
{
    most_is_kept();
    branch.trail.decides_once();
    if is_marked(marks, place) {
        add(steps, step_of(branch, place))
    } else {
        Ok(())
    }
}

/// The marked literals, in their order.
fn gather(problem: &Problem, branch: &Branch, marks: &[bool]) -> Result<Vec<Step>, NoMemory>
    requires history { IsHistory (nodes problem.now.table) problem.now branch.now.trail branch.now.reasons.items }
    requires decided { AreDecided branch.now.decisions.items branch.now.trail branch.now.reasons.items }
    requires explained { AreExplained (nodes problem.now.table) problem.now branch.now.trail branch.now.reasons.items marks.now 0 }
    ensures { IfOk result (λ steps. AreGathered (nodes problem.now.table) problem.now branch.now.decisions.items branch.now.trail marks.now (length branch.now.trail) steps.items) }
{
    let mut steps = Vec::new(branch.classes.table().alloc());
    for place in 0..branch.trail.len() {
        add_marked(problem, branch, marks, place, &mut steps)?;
    }
    Ok(steps)
}

/// Why a closed branch is closed: literals of the trail in their order, each of which was decided or follows from those before it
/// in the explanation, and which clash. Each says whether it was decided. The classes forget what they were told.
pub fn explain(problem: &Problem, branch: &mut Branch, cause: &Cause) -> Result<Vec<Step>, NoMemory>
    requires branch { (busy : List ℕ) × IsBranch problem.now busy branch.old }
    requires cause { IsCause (nodes problem.now.table) problem.now branch.old.trail cause.now }
    ensures closes { IfOk result (λ steps. ClosesBranch (instances_in (nodes problem.now.table) problem.now) (literals_at (nodes problem.now.table) branch.old.decisions.items) (trees_of (nodes problem.now.table) steps.items)) }
    ensures right { IfOk result (λ steps. AreRight problem.now branch.old.decisions.items steps.items) }
    ensures table { branch.new.classes.table ≡ branch.old.classes.table }
    ensures trail { branch.new.trail ≡ branch.old.trail }
    ensures reasons { branch.new.reasons.items ≡ branch.old.reasons.items }
    ensures decisions { branch.new.decisions.items ≡ branch.old.decisions.items }
{
    most_is_kept();
    branch.trail.decides_once();
    let marks = marked(problem, branch, cause)?;
    gather(problem, branch, marks.as_slice())
}
