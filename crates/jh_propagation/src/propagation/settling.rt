ghost use Rattle.std.specs.Prelude.{◌≡◌, ◌<◌, ◌≤◌, ◌+◌, [], ◌∷◌, ℕ, IfNone, IfOk, IfSome, OnOk, Some, drop, false, length, slice_get, true};
ghost use Rattle.jh_closure.specs.congruence_closure.Nodes.{Has};
ghost use Rattle.jh_arena.specs.table.Nodes.{nodes};
ghost use Rattle.jh_propagation.specs.trail.Looks.{AreForced};
ghost use Rattle.jh_propagation.specs.trail.Saying.{truth_at};
ghost use Rattle.jh_propagation.specs.declared.trail.decided.Decided.{Decided};
ghost use Rattle.jh_propagation.specs.trail.Occurring.{places_in};
ghost use Rattle.jh_propagation.specs.propagation.Branches.{HasMore, IsBranch, IsForced, IsLonger, IsSaid, WaitsAgain, undecided_count};
ghost use Rattle.jh_propagation.specs.propagation.Closings.{IsFalseAt};

use crate::propagation::branch::push;
use crate::propagation::{Branch, Problem, Reason};
use crate::trail::{Decided, Looked, forced_stands, look};
use jh_name::NoMemory;

/// Puts a literal to the trail that an instance forces, where its atom isn't decided yet.
fn take_one(
    problem: &Problem,
    branch: &mut Branch,
    place: usize,
    literal: Decided,
) -> Result<(), NoMemory>
    requires branch { IsBranch problem.now (place ∷ []) branch.old }
    requires atom { Has problem.now.ground.atoms literal.atom }
    requires occurs { Has (places_in problem.now.ground literal.atom) place }
    requires forced { IsForced (nodes problem.now.table) problem.now branch.old.trail literal place }
    ensures branch { OnOk result (IsBranch problem.now (place ∷ []) branch.new) }
    ensures more { OnOk result (HasMore problem.now branch.old branch.new) }
    ensures said { OnOk result (IsSaid branch.new.trail literal.atom) }
    ensures waits { OnOk result (WaitsAgain branch.old branch.new place) }
{
    if branch.trail.said(literal.atom).is_none() {
        push(problem, branch, literal, Reason::Instance(place))?;
    }
    Ok(())
}

/// The literal at a place of a list.
fn literal_at(list: &[Decided], index: usize) -> Decided
    requires { index < length list.now }
    ensures { slice_get list.now index ≡ Some result }
{
    list[index]
}

/// The instance at a place.
fn instance_at(problem: &Problem, place: usize) -> usize
    requires { place < length problem.now.instances.items }
    ensures { slice_get problem.now.instances.items place ≡ Some result }
{
    problem.instances[place]
}

/// Puts the literals to the trail that an instance forces.
fn take_all(
    problem: &Problem,
    branch: &mut Branch,
    place: usize,
    instance: usize,
    list: &[Decided],
) -> Result<(), NoMemory>
    requires branch { IsBranch problem.now (place ∷ []) branch.old }
    requires here { slice_get problem.now.instances.items place ≡ Some instance }
    requires forced { AreForced (nodes problem.now.table) branch.old.trail (truth_at (nodes problem.now.table) instance) list.now }
    ensures branch { OnOk result (IsBranch problem.now (place ∷ []) branch.new) }
    ensures more { OnOk result (HasMore problem.now branch.old branch.new) }
    ensures said { OnOk result ((l : Decided) → Has list.now l → IsSaid branch.new.trail l.atom) }
    ensures waits { OnOk result (WaitsAgain branch.old branch.new place) }
{
    forced_stands();
    problem.table.nodes_differ();
    for index in 0..list.len() {
        take_one(problem, branch, place, literal_at(list, index))?;
    }
    Ok(())
}

/// Looks at the instance at a place: puts what it forces to the trail, or answers that it is false.
fn look_at(problem: &Problem, branch: &mut Branch, place: usize) -> Result<bool, NoMemory>
    requires branch { IsBranch problem.now (place ∷ []) branch.old }
    requires inside { place < length problem.now.instances.items }
    ensures more { OnOk result (HasMore problem.now branch.old branch.new) }
    ensures quiet { IfOk result (λ goes. goes ≡ true → IsBranch problem.now [] branch.new) }
    ensures is_false { IfOk result (λ goes. goes ≡ false → IsFalseAt (nodes problem.now.table) problem.now branch.new.trail place) }
    ensures branch { IfOk result (λ goes. goes ≡ false → IsBranch problem.now (place ∷ []) branch.new) }
{
    let instance = instance_at(problem, place);
    match look(&problem.table, &branch.trail, instance)? {
        Looked::False => Ok(false),
        Looked::Forces(list) => {
            take_all(problem, branch, place, instance, list.items())?;
            Ok(true)
        }
    }
}

/// The place that stands at a number of a list.
fn place_at(waiting: &Vec<usize>, head: usize) -> Option<usize>
    ensures { result ≡ slice_get waiting.now.items head }
{
    waiting.get(head).copied()
}

/// The next instance that waits.
fn next_waiting(problem: &Problem, branch: &mut Branch) -> Option<usize>
    requires branch { IsBranch problem.now [] branch.old }
    ensures next { IfSome result (λ place. IsBranch problem.now (place ∷ []) branch.new) }
    ensures inside { IfSome result (λ place. place < length problem.now.instances.items) }
    ensures head { IfSome result (λ place. branch.new.head ≡ branch.old.head + 1) }
    ensures some { IfSome result (λ place. branch.old.head < length branch.old.waiting.items) }
    ensures waiting { branch.new.waiting.items ≡ branch.old.waiting.items }
    ensures classes { branch.new.classes ≡ branch.old.classes }
    ensures decisions { branch.new.decisions.items ≡ branch.old.decisions.items }
    ensures trail { branch.new.trail ≡ branch.old.trail }
    ensures reasons { branch.new.reasons ≡ branch.old.reasons }
    ensures none { IfNone result (IsBranch problem.now [] branch.new) }
    ensures over { IfNone result (drop branch.new.head branch.new.waiting.items ≡ []) }
{
    let _instances = &problem.instances;
    let place = place_at(&branch.waiting, branch.head)?;
    branch.head += 1;
    Some(place)
}

/// Looks at instances until none waits. The answer is the place of one that is false.
pub(crate) fn settle(problem: &Problem, branch: &mut Branch) -> Result<Option<usize>, NoMemory>
    requires branch { IsBranch problem.now [] branch.old }
    ensures quiet { IfOk result (λ found. IfNone found (IsBranch problem.now [] branch.new)) }
    ensures over { IfOk result (λ found. IfNone found (drop branch.new.head branch.new.waiting.items ≡ [])) }
    ensures is_false { IfOk result (λ found. IfSome found (λ place. IsFalseAt (nodes problem.now.table) problem.now branch.new.trail place)) }
    ensures branch { IfOk result (λ found. IfSome found (λ place. IsBranch problem.now (place ∷ []) branch.new)) }
    ensures classes { OnOk result (branch.new.classes ≡ branch.old.classes) }
    ensures decisions { OnOk result (branch.new.decisions.items ≡ branch.old.decisions.items) }
    ensures longer { OnOk result (IsLonger branch.old branch.new) }
    ensures count { OnOk result (undecided_count problem.now branch.new ≤ undecided_count problem.now branch.old) }
{
    while let Some(place) = next_waiting(problem, branch) {
        if !look_at(problem, branch, place)? {
            return Ok(Some(place));
        }
    }
    Ok(None)
}
