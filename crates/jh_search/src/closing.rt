ghost use Rattle.std.specs.Prelude.{◌≡◌, ◌⊎◌, ◌<◌, ◌+◌, IfOk, OnOk, Some, length, slice_get, true};
ghost use Rattle.jh_closure.specs.congruence_closure.Nodes.{Has};
ghost use Rattle.jh_arena.specs.table.Nodes.{nodes};
ghost use Rattle.jh_propagation.specs.declared.trail.decided.Decided.{Decided};
ghost use Rattle.jh_explanations.specs.Steps.{literals_of};
ghost use Rattle.jh_explanations.specs.declared.step.Step.{Step};
ghost use Rattle.jh_search.specs.Explained.{IsExplainedBy};
ghost use Rattle.jh_search.specs.Searches.{IsAtLeaf, IsGoingBack, IsKept};

use crate::turn::{ClosedBranch, Searching};
use crate::weights::Weights;
use jh_explanations::{Step, explain, shortened};
use jh_models::backjumping::search_goes_on;
use jh_name::NoMemory;
use jh_propagation::propagation::{Cause, Problem};
use jh_propagation::trail::{Decided, Trail};
use std::alloc::Global;

/// The atoms of an explanation stand in one more.
fn bump_all(weights: &mut Weights, steps: &[Step]) -> Result<(), NoMemory> {
    for step in steps {
        weights.bump(step.literal.atom)?;
    }
    Ok(())
}

/// A list of decisions once more.
fn copied(alloc: Global, list: &[Decided]) -> Result<Vec<Decided>, NoMemory>
    ensures { IfOk result (λ made. made.items ≡ list.now) }
{
    Ok(Vec::from_slice(alloc, list)?)
}

/// The step at a place.
fn step_at(steps: &[Step], place: usize) -> Step
    requires { place < length steps.now }
    ensures { slice_get steps.now place ≡ Some result }
{
    steps[place]
}

/// The literals of an explanation.
fn literals(alloc: Global, steps: &[Step]) -> Result<Vec<Decided>, NoMemory>
    ensures { IfOk result (λ made. made.items ≡ literals_of steps.now) }
{
    let mut made = Vec::new(alloc);
    for place in 0..steps.len() {
        made.push(step_at(steps, place).literal)?;
    }
    Ok(made)
}

/// Adds the literal of a step where it was decided.
fn add_need(needs: &mut Vec<Decided>, step: Step) -> Result<(), NoMemory>
    ensures only { OnOk result ((d : Decided) → Has needs.new.items d → Has needs.old.items d ⊎ ((step.literal ≡ d) × (step.is_decision ≡ true))) }
    ensures keeps { OnOk result ((d : Decided) → Has needs.old.items d → Has needs.new.items d) }
    ensures here { OnOk result (step.is_decision ≡ true → Has needs.new.items step.literal) }
{
    if step.is_decision {
        needs.push(step.literal)?;
    }
    Ok(())
}

/// The literals of an explanation that were decided.
fn needs_of(alloc: Global, steps: &[Step]) -> Result<Vec<Decided>, NoMemory>
    ensures only { IfOk result (λ made. (d : Decided) → Has made.items d → (s : Step) × (Has steps.now s × ((s.literal ≡ d) × (s.is_decision ≡ true)))) }
    ensures all { IfOk result (λ made. (s : Step) → Has steps.now s → s.is_decision ≡ true → Has made.items s.literal) }
{
    let mut needs = Vec::new(alloc);
    for place in 0..steps.len() {
        add_need(&mut needs, step_at(steps, place))?;
    }
    Ok(needs)
}

/// An explanation of the branch in which each decision is needed.
fn explained(
    problem: &Problem,
    searching: &mut Searching,
    cause: &Cause,
) -> Result<Vec<Step>, NoMemory>
    requires leaf { IsAtLeaf problem.now searching.old cause.now }
    ensures explains { IfOk result (λ steps. IsExplainedBy problem.now searching.old steps.items) }
    ensures table { OnOk result (searching.new.branch.classes.table ≡ searching.old.branch.classes.table) }
    ensures path { searching.new.path.items ≡ searching.old.path.items }
    ensures closed { searching.new.closed.items ≡ searching.old.closed.items }
    ensures kept { OnOk result (IsKept searching.old.branch searching.new.branch) }
{
    let steps = explain(problem, &mut searching.branch, cause)?;
    bump_all(&mut searching.weights, steps.as_slice())?;
    let decisions = copied(
        searching.branch.classes.table().alloc(),
        searching.branch.decisions.as_slice(),
    )?;
    if decisions.as_slice().len() == 0 {
        return Ok(steps);
    }
    let mut bench = Trail::new(searching.branch.classes.table().alloc());
    shortened(
        problem,
        &mut searching.branch.classes,
        &mut bench,
        steps,
        decisions.as_slice(),
    )
}

/// Closes the branch of the path: it is one more closed branch, and the answer is what it needs.
pub(crate) fn close(
    problem: &Problem,
    searching: &mut Searching,
    cause: &Cause,
) -> Result<Vec<Decided>, NoMemory>
    requires leaf { IsAtLeaf problem.now searching.old cause.now }
    ensures back { IfOk result (λ needs. IsGoingBack (nodes problem.now.table) problem.now searching.old.path.items searching.new.closed.items needs.items) }
    ensures count { OnOk result (length searching.new.closed.items ≡ length searching.old.closed.items + 1) }
    ensures table { OnOk result (searching.new.branch.classes.table ≡ searching.old.branch.classes.table) }
    ensures path { searching.new.path.items ≡ searching.old.path.items }
    ensures kept { OnOk result (IsKept searching.old.branch searching.new.branch) }
{
    search_goes_on();
    problem.table.nodes_differ();
    let alloc = searching.branch.classes.table().alloc();
    let decisions = copied(alloc, searching.branch.decisions.as_slice())?;
    let steps = explained(problem, searching, cause)?;
    let explanation = literals(alloc, steps.as_slice())?;
    searching.closed.push(ClosedBranch {
        decisions,
        explanation,
    })?;
    needs_of(alloc, steps.as_slice())
}
