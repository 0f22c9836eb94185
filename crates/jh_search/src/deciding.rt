ghost use Rattle.std.specs.Prelude.{◌≡◌, [], ℕ, IfNone, IfOk, IfSome, Some, false, length, slice_get, ◌<◌};
ghost use Rattle.jh_closure.specs.congruence_closure.Nodes.{Has};
ghost use Rattle.jh_propagation.specs.trail.Listing.{IsUndecided};
ghost use Rattle.jh_propagation.specs.propagation.Branches.{IsBranch, IsSaid};

use crate::weights::Weights;
use jh_name::NoMemory;
use jh_propagation::propagation::{Branch, Problem};
use jh_propagation::trail::{Decided, is_true};

/// Whether an atom is heavier than the best so far.
fn is_heavier(weights: &Weights, atom: usize, best: Option<usize>) -> bool {
    match best {
        Some(other) => weights.is_heavier(atom, other),
        None => true,
    }
}

/// The place at a number of a list.
pub(crate) fn place_at(places: &[usize], index: usize) -> usize
    requires { index < length places.now }
    ensures { slice_get places.now index ≡ Some result }
{
    places[index]
}

/// Whether the instance at a place isn't true yet.
fn is_open(problem: &Problem, branch: &Branch, place: usize) -> Result<bool, NoMemory>
    requires branch { IsBranch problem.now [] branch.now }
    requires inside { place < length problem.now.instances.items }
{
    let instance = place_at(&problem.instances, place);
    Ok(!is_true(&problem.table, &branch.trail, instance)?)
}

/// Whether an atom stands in an instance that isn't true yet.
fn is_wanted(problem: &Problem, branch: &Branch, atom: usize) -> Result<bool, NoMemory>
    requires branch { IsBranch problem.now [] branch.now }
{
    let places = problem.ground.places(atom);
    for index in 0..places.len() {
        if is_open(problem, branch, place_at(places, index))? {
            return Ok(true);
        }
    }
    Ok(false)
}

/// The better of the best atom so far and one more: an atom that isn't decided, stands in an instance that isn't true yet, and is
/// heavier.
fn better(
    problem: &Problem,
    branch: &Branch,
    weights: &Weights,
    best: Option<usize>,
    atom: usize,
) -> Result<Option<usize>, NoMemory>
    requires branch { IsBranch problem.now [] branch.now }
    requires atom { Has problem.now.ground.atoms atom }
    requires best { IfSome best (λ k. Has problem.now.ground.atoms k × IsUndecided branch.now.trail k) }
    ensures { IfOk result (λ found. IfSome found (λ k. Has problem.now.ground.atoms k × IsUndecided branch.now.trail k)) }
{
    match branch.trail.said(atom) {
        Some(_holds) => Ok(best),
        None => {
            if is_heavier(weights, atom, best) && is_wanted(problem, branch, atom)? {
                Ok(Some(atom))
            } else {
                Ok(best)
            }
        }
    }
}

/// Whether an atom may be decided next: it isn't decided, and stands in an instance that isn't true yet.
fn is_choice(problem: &Problem, branch: &Branch, atom: usize) -> Result<bool, NoMemory>
    requires branch { IsBranch problem.now [] branch.now }
{
    match branch.trail.said(atom) {
        Some(_holds) => Ok(false),
        None => is_wanted(problem, branch, atom),
    }
}

/// The index of the first atom, from an index on, that may be decided next. No earlier one may be once more literals are decided.
fn first_choice(problem: &Problem, branch: &Branch, start: usize) -> Result<usize, NoMemory>
    requires branch { IsBranch problem.now [] branch.now }
{
    let atoms = problem.ground.atoms();
    for index in start..atoms.len() {
        if is_choice(problem, branch, place_at(atoms, index))? {
            return Ok(index);
        }
    }
    Ok(atoms.len())
}

/// The atom at an index, where there are so many.
fn atom_at(atoms: &[usize], index: usize) -> Option<usize>
    ensures { result ≡ slice_get atoms.now index }
{
    atoms.get(index).copied()
}

/// The better of the best atom so far and the one at an index, where there are so many.
fn better_at(
    problem: &Problem,
    branch: &Branch,
    weights: &Weights,
    best: Option<usize>,
    index: usize,
) -> Result<Option<usize>, NoMemory>
    requires branch { IsBranch problem.now [] branch.now }
    requires best { IfSome best (λ k. Has problem.now.ground.atoms k × IsUndecided branch.now.trail k) }
    ensures { IfOk result (λ found. IfSome found (λ k. Has problem.now.ground.atoms k × IsUndecided branch.now.trail k)) }
{
    match atom_at(problem.ground.atoms(), index) {
        Some(atom) => better(problem, branch, weights, best, atom),
        None => Ok(best),
    }
}

/// The heaviest of the atoms that stood in an explanation, aren't decided and stand in an instance that isn't true yet.
fn heaviest(
    problem: &Problem,
    branch: &Branch,
    weights: &Weights,
) -> Result<Option<usize>, NoMemory>
    requires branch { IsBranch problem.now [] branch.now }
    ensures { IfOk result (λ found. IfSome found (λ k. Has problem.now.ground.atoms k × IsUndecided branch.now.trail k)) }
{
    let heavy = weights.heavy();
    let mut best = None;
    for place in 0..heavy.len() {
        best = better_at(problem, branch, weights, best, place_at(heavy, place))?;
    }
    Ok(best)
}

/// The atom to decide next: the heaviest of those that aren't decided and stand in an instance that isn't true yet. While literals are
/// put to the trail and none is taken off, no earlier atom becomes one: so those that stood in no explanation are looked at from where
/// an earlier decision of the path found the first of them.
pub(crate) fn choose(
    problem: &Problem,
    branch: &Branch,
    weights: &mut Weights,
) -> Result<Option<usize>, NoMemory>
    requires branch { IsBranch problem.now [] branch.now }
    ensures { IfOk result (λ found. IfSome found (λ k. Has problem.now.ground.atoms k × IsUndecided branch.now.trail k)) }
{
    let start = weights.start(branch);
    if let Some(atom) = heaviest(problem, branch, weights)? {
        weights.note(start)?;
        return Ok(Some(atom));
    }
    let first = first_choice(problem, branch, start)?;
    weights.note(first)?;
    better_at(problem, branch, weights, None, first)
}

/// The first atom, from an index on, that isn't decided. The index goes there.
fn next_undecided(problem: &Problem, branch: &Branch, start: &mut usize) -> Option<usize>
    ensures { IfSome result (λ k. Has problem.now.ground.atoms k × IsUndecided branch.now.trail k) }
{
    let atoms = problem.ground.atoms();
    for index in *start..atoms.len() {
        let atom = place_at(atoms, index);
        match branch.trail.said(atom) {
            Some(_holds) => {}
            None => {
                *start = index;
                return Some(atom);
            }
        }
    }
    None
}

/// The first atom that isn't decided.
pub(crate) fn first_undecided(problem: &Problem, branch: &Branch) -> Option<usize>
    ensures some { IfSome result (λ k. Has problem.now.ground.atoms k × IsUndecided branch.now.trail k) }
    ensures none { IfNone result ((k : ℕ) → Has problem.now.ground.atoms k → IsSaid branch.now.trail k) }
{
    let atoms = problem.ground.atoms();
    for index in 0..atoms.len() {
        let atom = place_at(atoms, index);
        match branch.trail.said(atom) {
            Some(_holds) => {}
            None => return Some(atom),
        }
    }
    None
}

/// An atom that isn't decided, where there is one. Those before the index are asked last: they are decided, unless literals were taken
/// off since the index went there.
pub(crate) fn any_undecided(problem: &Problem, branch: &Branch, start: &mut usize) -> Option<usize>
    ensures some { IfSome result (λ k. Has problem.now.ground.atoms k × IsUndecided branch.now.trail k) }
    ensures none { IfNone result ((k : ℕ) → Has problem.now.ground.atoms k → IsSaid branch.now.trail k) }
{
    match next_undecided(problem, branch, start) {
        Some(atom) => Some(atom),
        None => first_undecided(problem, branch),
    }
}

/// The decision on an atom: that it doesn't hold.
pub(crate) fn denied(atom: usize) -> Decided
    ensures atom { result.atom ≡ atom }
    ensures holds { result.holds ≡ false }
{
    Decided { atom, holds: false }
}
