ghost use Rattle.std.specs.Prelude.{◌≡◌, ◌<◌, ◌≤◌, ◌+◌, ◌++◌, [], ◌∷◌, ℕ, false, true, List, IfOk, OnOk, Some, length, take};
ghost use Rattle.jh_closure.specs.congruence_closure.Nodes.{Has};
ghost use Rattle.jh_arena.specs.table.Nodes.{nodes};
ghost use Rattle.jh_models.specs.ground_models.Clashes.{Clash};
ghost use Rattle.jh_models.specs.ground_models.Explanations.{ClosesBranch, IsExplanation};
ghost use Rattle.jh_propagation.specs.trail.Listing.{IsUndecided};
ghost use Rattle.jh_propagation.specs.trail.Saying.{literals_at};
ghost use Rattle.jh_propagation.specs.declared.trail.decided.Decided.{Decided};
ghost use Rattle.jh_propagation.specs.propagation.Problems.{IsProblem, instances_in};
ghost use Rattle.jh_explanations.specs.Keeping.{AreFollowing, AreKept, AreRight, IsKept, IsQuiet, IsReady, IsTried, AreTried, kept_items};
ghost use Rattle.jh_explanations.specs.Steps.{AreOverAtoms, literals_of, trees_of};

use crate::Step;
use crate::keeping::{clear, keep};
use crate::rewinding::{rewind, steps_before};
use crate::step::{holds, is_one, literal_at, step_at};
use crate::testing::clashes;
use jh_cong::classes::Classes;
use jh_models::shortening::{most_is_kept, shortening_is_exact};
use jh_name::NoMemory;
use jh_propagation::propagation::Problem;
use jh_propagation::trail::{Decided, Trail};
use std::alloc::Global;

/// Whether a step is kept: it isn't the one that is taken out, and was decided, or follows from what is kept.
fn is_kept(
    problem: &Problem,
    classes: &mut Classes,
    trail: &Trail,
    step: Step,
    out: Decided,
) -> Result<bool, NoMemory>
    requires problem { IsProblem (nodes classes.old.table) problem.now }
    requires atom { Has problem.now.ground.atoms step.literal.atom }
    requires quiet { IsQuiet problem.now classes.old trail.now }
    ensures classes { OnOk result (classes.new ≡ classes.old) }
    ensures table { classes.new.table ≡ classes.old.table }
    ensures stands { IfOk result (λ yes. IsKept (nodes problem.now.table) problem.now trail.now step out yes) }
{
    if is_one(step.literal, out) {
        return Ok(false);
    }
    if step.is_decision {
        return Ok(true);
    }
    clashes(problem, classes, trail, step.literal)
}

/// Keeps a step. The answer is whether what is kept clashes.
fn keep_step(
    problem: &Problem,
    classes: &mut Classes,
    trail: &mut Trail,
    step: Step,
    kept: &mut Vec<Step>,
) -> Result<bool, NoMemory>
    requires problem { IsProblem (nodes classes.old.table) problem.now }
    requires atom { Has problem.now.ground.atoms step.literal.atom }
    requires quiet { IsQuiet problem.now classes.old trail.old }
    requires undecided { IsUndecided trail.old step.literal.atom }
    requires trail { trail.old ≡ literals_of kept.old.items }
    ensures kept { OnOk result (kept.new.items ≡ kept.old.items ++ step ∷ []) }
    ensures trail { OnOk result (trail.new ≡ literals_of (kept.old.items ++ step ∷ [])) }
    ensures table { classes.new.table ≡ classes.old.table }
    ensures clash { IfOk result (λ yes. yes ≡ true → Clash (instances_in (nodes problem.now.table) problem.now) (trees_of (nodes problem.now.table) (kept.old.items ++ step ∷ []))) }
    ensures quiet { IfOk result (λ yes. yes ≡ false → IsQuiet problem.now classes.new trail.new) }
    ensures ready { OnOk result (IsReady problem.now classes.new trail.new) }
{
    kept.push(step)?;
    keep(problem, classes, trail, step.literal)
}

/// Goes one step further: keeps it where it is kept. The answer is whether what is kept clashes.
fn take(
    problem: &Problem,
    classes: &mut Classes,
    trail: &mut Trail,
    steps: &[Step],
    index: usize,
    out: Decided,
    kept: &mut Vec<Step>,
) -> Result<bool, NoMemory>
    requires problem { IsProblem (nodes classes.old.table) problem.now }
    requires inside { index < length steps.now }
    requires over { AreOverAtoms problem.now.ground (literals_of steps.now) }
    requires out { Has problem.now.ground.atoms out.atom }
    requires quiet { IsQuiet problem.now classes.old trail.old }
    requires trail { trail.old ≡ literals_of kept.old.items }
    requires kept { AreKept (nodes problem.now.table) problem.now steps.now out index kept.old.items }
    ensures table { classes.new.table ≡ classes.old.table }
    ensures trail { OnOk result (trail.new ≡ literals_of kept.new.items) }
    ensures kept { OnOk result (AreKept (nodes problem.now.table) problem.now steps.now out (index + 1) kept.new.items) }
    ensures clash { IfOk result (λ yes. yes ≡ true → Clash (instances_in (nodes problem.now.table) problem.now) (trees_of (nodes problem.now.table) kept.new.items)) }
    ensures quiet { IfOk result (λ yes. yes ≡ false → IsQuiet problem.now classes.new trail.new) }
    ensures ready { OnOk result (IsReady problem.now classes.new trail.new) }
{
    most_is_kept();
    problem.table.nodes_differ();
    let step = step_at(steps, index);
    let keeps = is_kept(problem, classes, trail, step, out)?;
    if keeps {
        keep_step(problem, classes, trail, step, kept)
    } else {
        Ok(false)
    }
}

/// The first so many steps.
fn first_steps(alloc: Global, steps: &[Step], count: usize) -> Result<Vec<Step>, NoMemory>
    requires { count ≤ length steps.now }
    ensures { IfOk result (λ made. made.items ≡ take count steps.now) }
{
    Ok(Vec::from_slice(alloc, &steps[..count])?)
}

/// Keeps the steps from one place up to another, which stands before what is taken out: nothing is asked of them. The answer is whether
/// what is kept clashes.
fn keep_first(
    problem: &Problem,
    classes: &mut Classes,
    trail: &mut Trail,
    steps: &[Step],
    start: usize,
    count: usize,
    kept: &mut Vec<Step>,
) -> Result<bool, NoMemory>
    requires problem { IsProblem (nodes classes.old.table) problem.now }
    requires over { AreOverAtoms problem.now.ground (literals_of steps.now) }
    requires few { start ≤ count }
    requires inside { count ≤ length steps.now }
    requires quiet { IsQuiet problem.now classes.old trail.old }
    requires trail { trail.old ≡ literals_of kept.old.items }
    requires kept { kept.old.items ≡ take start steps.now }
    ensures table { classes.new.table ≡ classes.old.table }
    ensures trail { OnOk result (trail.new ≡ literals_of kept.new.items) }
    ensures kept { OnOk result ((end : ℕ) × ((end ≤ count) × (kept.new.items ≡ take end steps.now))) }
    ensures all { IfOk result (λ yes. yes ≡ false → kept.new.items ≡ take count steps.now) }
    ensures clash { IfOk result (λ yes. yes ≡ true → Clash (instances_in (nodes problem.now.table) problem.now) (trees_of (nodes problem.now.table) kept.new.items)) }
    ensures quiet { IfOk result (λ yes. yes ≡ false → IsQuiet problem.now classes.new trail.new) }
    ensures ready { OnOk result (IsReady problem.now classes.new trail.new) }
{
    for index in start..count {
        let clash = keep_step(problem, classes, trail, step_at(steps, index), kept)?;
        if clash {
            return Ok(true);
        }
    }
    Ok(false)
}

/// Keeps of the steps from a place on those that still follow without a decision. The answer is whether what is kept clashes.
fn keep_rest(
    problem: &Problem,
    classes: &mut Classes,
    trail: &mut Trail,
    steps: &[Step],
    start: usize,
    out: Decided,
    kept: &mut Vec<Step>,
) -> Result<bool, NoMemory>
    requires problem { IsProblem (nodes classes.old.table) problem.now }
    requires over { AreOverAtoms problem.now.ground (literals_of steps.now) }
    requires out { Has problem.now.ground.atoms out.atom }
    requires inside { start ≤ length steps.now }
    requires quiet { IsQuiet problem.now classes.old trail.old }
    requires trail { trail.old ≡ literals_of kept.old.items }
    requires kept { AreKept (nodes problem.now.table) problem.now steps.now out start kept.old.items }
    ensures table { classes.new.table ≡ classes.old.table }
    ensures shorter { IfOk result (λ yes. yes ≡ true → IsTried (nodes problem.now.table) problem.now steps.now out (Some kept.new.items)) }
    ensures whole { IfOk result (λ yes. yes ≡ false → IsTried (nodes problem.now.table) problem.now steps.now out None) }
    ensures ready { OnOk result (IsReady problem.now classes.new trail.new) }
{
    most_is_kept();
    problem.table.nodes_differ();
    for index in start..steps.len() {
        let clash = take(problem, classes, trail, steps, index, out, kept)?;
        if clash {
            return Ok(true);
        }
    }
    Ok(false)
}

/// Of an explanation those steps that still follow without a decision. None comes where they don't clash. What the trail and the classes
/// have of the first steps, up to the decision, stays there.
fn without(
    problem: &Problem,
    classes: &mut Classes,
    trail: &mut Trail,
    steps: &[Step],
    out: Decided,
) -> Result<Option<Vec<Step>>, NoMemory>
    requires problem { IsProblem (nodes classes.old.table) problem.now }
    requires over { AreOverAtoms problem.now.ground (literals_of steps.now) }
    requires out { Has problem.now.ground.atoms out.atom }
    requires following { AreFollowing (nodes problem.now.table) problem.now steps.now }
    requires ready { IsReady problem.now classes.old trail.old }
    ensures table { classes.new.table ≡ classes.old.table }
    ensures tried { IfOk result (λ found. IsTried (nodes problem.now.table) problem.now steps.now out (kept_items found)) }
    ensures ready { OnOk result (IsReady problem.now classes.new trail.new) }
{
    most_is_kept();
    problem.table.nodes_differ();
    let alloc = classes.table().alloc();
    let before = steps_before(steps, out);
    let count = rewind(problem, classes, trail, steps, before);
    let mut kept = first_steps(alloc, steps, count)?;
    if keep_first(problem, classes, trail, steps, count, before, &mut kept)? {
        return Ok(Some(kept));
    }
    if keep_rest(problem, classes, trail, steps, before, out, &mut kept)? {
        return Ok(Some(kept));
    }
    Ok(None)
}

/// An explanation without a decision that stands in it, where there is one.
fn taken_out(
    problem: &Problem,
    classes: &mut Classes,
    trail: &mut Trail,
    steps: Vec<Step>,
    out: Decided,
) -> Result<Vec<Step>, NoMemory>
    requires problem { IsProblem (nodes classes.old.table) problem.now }
    requires over { AreOverAtoms problem.now.ground (literals_of steps.items) }
    requires out { Has problem.now.ground.atoms out.atom }
    requires following { AreFollowing (nodes problem.now.table) problem.now steps.items }
    requires ready { IsReady problem.now classes.old trail.old }
    ensures table { classes.new.table ≡ classes.old.table }
    ensures ready { OnOk result (IsReady problem.now classes.new trail.new) }
    ensures tries { IfOk result (λ made. (ds tried : List Decided) → AreTried (nodes problem.now.table) problem.now ds tried steps.items → AreTried (nodes problem.now.table) problem.now ds (out ∷ tried) made.items) }
{
    most_is_kept();
    shortening_is_exact();
    problem.table.nodes_differ();
    let found = without(problem, classes, trail, steps.as_slice(), out)?;
    match found {
        Some(kept) => Ok(kept),
        None => Ok(steps),
    }
}

/// An explanation without a decision, where there is one.
fn shortened_by(
    problem: &Problem,
    classes: &mut Classes,
    trail: &mut Trail,
    steps: Vec<Step>,
    out: Decided,
) -> Result<Vec<Step>, NoMemory>
    requires problem { IsProblem (nodes classes.old.table) problem.now }
    requires over { AreOverAtoms problem.now.ground (literals_of steps.items) }
    requires out { Has problem.now.ground.atoms out.atom }
    requires following { AreFollowing (nodes problem.now.table) problem.now steps.items }
    requires ready { IsReady problem.now classes.old trail.old }
    ensures table { classes.new.table ≡ classes.old.table }
    ensures ready { OnOk result (IsReady problem.now classes.new trail.new) }
    ensures tries { IfOk result (λ made. (ds tried : List Decided) → AreTried (nodes problem.now.table) problem.now ds tried steps.items → AreTried (nodes problem.now.table) problem.now ds (out ∷ tried) made.items) }
{
    most_is_kept();
    shortening_is_exact();
    problem.table.nodes_differ();
    if holds(steps.as_slice(), out) {
        taken_out(problem, classes, trail, steps, out)
    } else {
        Ok(steps)
    }
}

/// An explanation in which each decision is needed: without it, whatever else is left out, what is left explains nothing. It is
/// made of one in which each step says whether it was decided, where the instances don't clash by themselves. What the classes and
/// the trail held before is forgotten.
pub fn shortened(
    problem: &Problem,
    classes: &mut Classes,
    trail: &mut Trail,
    steps: Vec<Step>,
    decisions: &[Decided],
) -> Result<Vec<Step>, NoMemory>
    requires problem { IsProblem (nodes classes.old.table) problem.now }
    requires right { AreRight problem.now decisions.now steps.items }
    requires closes { ClosesBranch (instances_in (nodes problem.now.table) problem.now) (literals_at (nodes problem.now.table) decisions.now) (trees_of (nodes problem.now.table) steps.items) }
    requires quiet { Clash (instances_in (nodes problem.now.table) problem.now) [] → ⊥ }
    ensures explains { IfOk result (λ made. IsExplanation (instances_in (nodes problem.now.table) problem.now) (literals_at (nodes problem.now.table) decisions.now) (trees_of (nodes problem.now.table) made.items)) }
    ensures right { IfOk result (λ made. AreRight problem.now decisions.now made.items) }
    ensures table { classes.new.table ≡ classes.old.table }
{
    most_is_kept();
    shortening_is_exact();
    problem.table.nodes_differ();
    clear(classes, trail);
    let mut steps = steps;
    let count = decisions.len();
    for index in 0..count {
        let decision = literal_at(decisions, count - 1 - index);
        let made = shortened_by(problem, classes, trail, steps, decision)?;
        steps = made;
    }
    Ok(steps)
}
